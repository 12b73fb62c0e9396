// What a test is asked of.
ghost use Rattle.std.specs.Prelude.{◌≡◌, ◌<◌, length, slice_index_or};
ghost use Rattle.rules.specs.declared.row.Row.TheVariants.{Not};

use meaning::verdict::Variable;
use rules::row::Row;

// The rows of the sheet, the variables known, and the place where the test is asked.
#[derive(Clone, Copy)]
pub struct Question<'a> {
    pub rows: &'a [Row],
    pub known: &'a [Variable],
    pub place: u16,
}

impl Question<'_> {
    pub(crate) fn row(&self, at: usize) -> Row
        requires { at < length self.now.rows.now }
        ensures { result ≡ slice_index_or self.now.rows.now at Not }
    {
        self.rows[at]
    }
}
