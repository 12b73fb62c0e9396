// Where the part that begins at each row ends.
ghost use Rattle.std.specs.Prelude.{◌≡◌, ◌<◌, ◌≤◌, length, slice_index};
ghost use Rattle.rules.specs.Limits.{most_rows};
ghost use Rattle.judging.specs.Extents.{arity, end_at, Ends};

use rules::limits::MOST_ROWS;
use rules::row::Row;

// How many parts a row is followed by.
fn parts(row: Row) -> usize
    ensures { result ≡ arity row }
{
    match row {
        Row::Not | Row::Occurrence { .. } | Row::Absence { .. } => 1,
        Row::Quantify { .. } | Row::NotTest => 1,
        Row::Connect { .. } | Row::Scope { .. } => 2,
        Row::Join { .. } | Row::Compare { .. } | Row::Reckon { .. } => 2,
        Row::True | Row::Constant { .. } | Row::Time { .. } => 0,
        Row::Value { .. } | Row::Number { .. } => 0,
    }
}

fn number_at(numbers: &[usize], i: usize) -> usize
    ensures { result ≡ slice_index numbers.now i }
{
    numbers.get(i).copied().unwrap_or(0)
}

// The row behind the part at a row that is followed by so many parts, from the ends of the later ones.
fn end_of(parts: usize, ends: &[usize], i: usize) -> usize
    requires { i < most_rows }
    ensures { result ≡ end_at parts ends.now i }
{
    match parts {
        0 => i + 1,
        1 => number_at(ends, i + 1),
        _ => number_at(ends, number_at(ends, i + 1)),
    }
}

// The row behind the part that begins at each row.
pub(crate) fn ends_of(rows: &[Row]) -> [usize; MOST_ROWS]
    requires { length rows.now ≤ most_rows }
    ensures { Ends rows.now result }
{
    let mut ends = [0; MOST_ROWS];
    for i in (0..rows.len()).rev() {
        let row = rows[i];
        ends[i] = end_of(parts(row), &ends, i);
    }
    ends
}
