// A sheet of rules: rows that write properties, one after another.
ghost use Rattle.std.specs.Prelude.{◌≡◌, ℕ, true, length, slice_get};
ghost use Rattle.lists.specs.ShortLists.{items};
ghost use Rattle.rules.specs.Encoded.{all_allowed};
ghost use Rattle.rules.specs.Lawful.{Lawful};
ghost use Rattle.rules.specs.Written.{started};

use crate::limits::{MOST_ROWS, MOST_RULES};
use crate::row::Row;
use lists::ShortList;

#[derive(Clone, Copy)]
pub struct Sheet {
    rows: ShortList<Row, MOST_ROWS>,
    starts: ShortList<usize, MOST_RULES>,
    ghost bounded: { all_allowed (items rows) ≡ true },
    ghost lawful: { Lawful (items rows) (length (items starts)) },
    ghost begun: { (i : ℕ) → slice_get (items starts) i ≡ started (length (items starts)) (items rows) i },
}

// Why a sheet's bytes are not taken: the first bad row.
#[derive(Clone, Copy, Debug, PartialEq, Eq)]
pub enum InspectRefusal {
    Layout { row: usize },
}

// Why a rule has no reach.
#[derive(Clone, Copy, Debug, PartialEq, Eq)]
pub enum ReachRefusal {
    NoSuchRule = 7,
}

mod methods;
