// The numbers that causes have in a report.
ghost use Rattle.std.specs.Prelude.{◌≡◌};
ghost use Rattle.meaning.specs.Terms.{cause_number};

use crate::verdict::Cause;

impl From<Cause> for u8 {
    ghost from_gives = { λ cause number. number ≡ cause_number cause };

    fn from(cause: Cause) -> u8 {
        cause as u8
    }
}

impl Cause {
    // The same number as a method: who calls it need not list this crate.
    pub fn number(self) -> u8
        ensures { result ≡ cause_number self }
    {
        self.into()
    }
}
