// How many rows begin properties.
ghost use Rattle.std.specs.Prelude.{◌≡◌};
ghost use Rattle.rules.specs.Reach.{property_rows};

use crate::read::{Part, part_of};
use crate::row::Row;

pub(crate) fn property_rows(rows: &[Row]) -> usize
    ensures { result ≡ property_rows rows.now }
{
    rows.iter()
        .filter(|row| part_of(**row) == Part::Property)
        .count()
}
