// The connectives of verdicts.
ghost use Rattle.std.specs.Prelude.{◌≡◌};
ghost use Rattle.meaning.specs.Three.{not3, and3, or3};

use crate::verdict::Verdict;

impl Verdict {
    pub fn negate(self) -> Verdict
        ensures { result ≡ not3 self }
    {
        match self {
            Verdict::Holds => Verdict::Fails,
            Verdict::Fails => Verdict::Holds,
            Verdict::Open(origin) => Verdict::Open(origin),
        }
    }

    pub fn and(self, other: Verdict) -> Verdict
        ensures { result ≡ and3 self other }
    {
        match (self, other) {
            (Verdict::Holds, other) => other,
            (Verdict::Fails, _) => Verdict::Fails,
            (Verdict::Open(_), Verdict::Fails) => Verdict::Fails,
            (Verdict::Open(origin), _) => Verdict::Open(origin),
        }
    }

    pub fn or(self, other: Verdict) -> Verdict
        ensures { result ≡ or3 self other }
    {
        self.negate().and(other.negate()).negate()
    }
}
