// What a judging reads and does not change.
ghost use Rattle.std.specs.Prelude.{◌≡◌, ◌≤◌, length};
ghost use Rattle.rules.specs.Limits.{most_rows};
ghost use Rattle.judging.specs.Extents.{Ends};

use crate::extents::ends_of;
use logs::log::ReadingLog;
use rules::limits::MOST_ROWS;
use rules::row::Row;

// A log, the rows of a sheet, and where the part that begins at each row ends.
#[derive(Drop)]
pub(crate) struct Matter<'a, L: ReadingLog> {
    pub(crate) log: &'a L,
    pub(crate) rows: &'a [Row],
    pub(crate) ends: [usize; MOST_ROWS],
    ghost few: { length rows.now ≤ most_rows },
    ghost ended: { Ends rows.now ends },
}

impl<'a, L: ReadingLog> Matter<'a, L> {
    pub(crate) fn new(log: &'a L, rows: &'a [Row]) -> Matter<'a, L>
        requires { length rows.now ≤ most_rows }
        ensures log { result.log.now ≡ log.now }
        ensures rows { result.rows.now ≡ rows.now }
    {
        Matter {
            log,
            rows,
            ends: ends_of(rows),
        }
    }
}
