// The variables that the rows around a row bind, the outermost first.
ghost use Rattle.std.specs.Prelude.{◌≡◌, []};
ghost use Rattle.std.specs.Option.{option_map};
ghost use Rattle.rules.specs.Decoded.{when};
ghost use Rattle.rules.specs.Wanted.{known_as, room_in, ◌⊕◌};
ghost use Rattle.rules.specs.Reading.{sorts};

use crate::limits::DEEPEST;
use lists::ShortList;

#[derive(Clone, Copy, Debug, PartialEq, Eq)]
pub enum Sort {
    Event,
    Number,
}

#[derive(Clone, Copy)]
pub struct Known {
    sorts: ShortList<Sort, DEEPEST>,
}

impl Known {
    pub(crate) fn nothing() -> Known
        ensures { sorts result ≡ [] }
    {
        Known {
            sorts: ShortList::new(Sort::Event),
        }
    }

    // Whether a variable is known, and of that sort.
    pub(crate) fn knows(self, sort: Sort, variable: u8) -> bool
        ensures { result ≡ known_as sort (sorts self) variable }
    {
        self.sorts.get(variable as usize) == Some(sort)
    }

    // One more variable, the innermost, if there is room for it.
    pub(crate) fn with(mut self, sort: Sort) -> Option<Known>
        ensures { option_map sorts result ≡ when (room_in (sorts self)) (sorts self ⊕ sort) }
    {
        self.sorts.push(sort).ok()?;
        Some(self)
    }
}
