// The rows in the bytes of a sheet.
ghost use Rattle.std.specs.Prelude.{◌≡◌, ◌+◌, ◌<◌, ◌≤◌, length};
ghost use Rattle.lists.specs.ShortLists.{items};
ghost use Rattle.rules.specs.Layout.{Sizes, rule_count, row_count, raw_at, rows_of};

use crate::limits::{MOST_ROWS, MOST_RULES};
use crate::raw::RawRow;
use crate::row::{Row, Undefined};
use crate::sheet::InspectRefusal;
use lists::ShortList;

// The bytes of a sheet, which are as many as their counts say, and these within their bounds.
#[derive(Clone, Copy)]
pub struct SheetBytes<'a> {
    bytes: &'a [u8],
    pub rules: usize,
    pub count: usize,
    ghost sizes: { Sizes bytes.now },
    ghost many_rules: { rules ≡ rule_count bytes.now },
    ghost many_rows: { count ≡ row_count bytes.now },
}

impl<'a> TryFrom<&'a [u8]> for SheetBytes<'a> {
    type Error = InspectRefusal;

    ghost use Rattle.rules.specs.Sheets.{SizesTell};

    ghost try_from_gives = { λ bytes sheet. SizesTell bytes.now sheet };

    fn try_from(bytes: &'a [u8]) -> Result<SheetBytes<'a>, InspectRefusal> {
        let refusal = InspectRefusal::Layout { row: 0 };
        let [a, b, c, d] = *bytes.first_chunk::<4>().ok_or(refusal)?;
        let rules = usize::from(u16::from_le_bytes([a, b]));
        let count = usize::from(u16::from_le_bytes([c, d]));
        if (1..=MOST_RULES).contains(&rules)
            && (rules..=MOST_ROWS).contains(&count)
            && bytes.len() == 4 + 8 * count
        {
            Ok(SheetBytes {
                bytes,
                rules,
                count,
            })
        } else {
            Err(refusal)
        }
    }
}

impl SheetBytes<'_> {
    // The head and the number of a row.
    fn raw_row(&self, i: usize) -> RawRow
        requires { i < self.now.count }
        ensures { result ≡ raw_at self.now.bytes.now self.now.count i }
    {
        let head = 4 + 4 * i;
        let tail = 4 + 4 * self.count + 4 * i;
        let [kind, a, b, c] = *self.bytes[head..head + 4].as_array::<4>().unwrap();
        RawRow {
            kind,
            a,
            b,
            c,
            number: i32::from_le_bytes(*self.bytes[tail..tail + 4].as_array::<4>().unwrap()),
        }
    }

    // The rows up to the first that is none.
    pub(crate) fn rows(&self) -> ShortList<Row, MOST_ROWS>
        ensures same { items result ≡ rows_of self.now.bytes.now }
        ensures few { length (items result) ≤ self.now.count }
    {
        let mut rows = ShortList::new(Row::Not);
        for i in 0..self.count {
            match Row::try_from(self.raw_row(i)) {
                Ok(row) => rows.push(row).unwrap(),
                Err(Undefined) => return rows,
            }
        }
        rows
    }
}
