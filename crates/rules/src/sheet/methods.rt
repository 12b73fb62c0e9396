ghost use Rattle.std.specs.Prelude.{◌≡◌, ◌+◌, ◌<◌, ◌≤◌, true, [], length};
ghost use Rattle.rules.specs.Exact.{Exact};
ghost use Rattle.rules.specs.Sheets.{held, start_in, reach_in, inspect_refusal_number, reach_refusal_number, Inspected};
ghost use Rattle.rules.specs.Trees.{Test, Begins, test_rows};
ghost use Rattle.rules.specs.Forest.{test_at};
ghost use Rattle.rules.specs.Written.{start_of, begins_test};

use crate::layout::SheetBytes;
use crate::reach::property_rows;
use crate::read::{check_rules, is_test_at};
use crate::row::Row;
use crate::sheet::{InspectRefusal, ReachRefusal, Sheet};
use lists::ShortList;

impl From<InspectRefusal> for u8 {
    ghost from_gives = { λ refusal number. number ≡ inspect_refusal_number refusal };

    fn from(refusal: InspectRefusal) -> u8 {
        match refusal {
            InspectRefusal::Layout { .. } => 6,
        }
    }
}

impl InspectRefusal {
    // The same number as a method: who calls it need not list this crate.
    pub fn number(self) -> u8
        ensures { result ≡ inspect_refusal_number self }
    {
        self.into()
    }
}

impl From<ReachRefusal> for u8 {
    ghost from_gives = { λ refusal number. number ≡ reach_refusal_number refusal };

    fn from(refusal: ReachRefusal) -> u8 {
        refusal as u8
    }
}

impl ReachRefusal {
    // The same number as a method: who calls it need not list this crate.
    pub fn number(self) -> u8
        ensures { result ≡ reach_refusal_number self }
    {
        u8::from(self)
    }
}

impl Sheet {
    // A sheet without rules.
    pub fn new() -> Sheet
        ensures { held result ≡ (0, []) }
    {
        Sheet {
            rows: ShortList::new(Row::Not),
            starts: ShortList::new(0),
        }
    }

    // Takes the sheet that the bytes are, or keeps the former one.
    #[tactic(auto, using(crate::proofs::Bytes::exact_stands, crate::proofs::Bytes::rows_allowed))]
    pub fn inspect(&mut self, bytes: &[u8]) -> Result<(), InspectRefusal>
        ensures whole { Inspected bytes.now (held self.old) (held self.new) result }
        ensures exact { Exact }
    {
        let sheet = SheetBytes::try_from(bytes)?;
        let rows = sheet.rows();
        let starts = check_rules(rows.as_slice(), sheet.rules)?;
        if rows.len() < sheet.count {
            return Err(InspectRefusal::Layout { row: rows.len() });
        }
        *self = Sheet { rows, starts };
        Ok(())
    }

    // How many rules the sheet has.
    pub fn rules(&self) -> usize
        ensures { result ≡ (held self.now).0 }
    {
        self.starts.len()
    }

    pub fn rows(&self) -> &[Row]
        ensures { result.now ≡ (held self.now).1 }
    {
        self.rows.as_slice()
    }

    // Whether a test begins at a row. Its rows then stand there whole; and where rows of a test stand, it begins.
    pub fn begins_test(&self, row: usize) -> bool
        ensures same { result ≡ begins_test (held self.now).1 row }
        ensures whole { result ≡ true → Begins (held self.now).1 row (test_rows (test_at (held self.now).1 row)) }
        ensures only { (t : Test) → Begins (held self.now).1 row (test_rows t) → result ≡ true }
    {
        is_test_at(self.rows(), row)
    }

    // The first row of a rule.
    pub fn start(&self, rule: usize) -> Option<usize>
        ensures { result ≡ start_in (held self.now) rule }
    {
        self.starts.get(rule)
    }

    // The row behind the last row of a rule.
    fn behind(&self, rule: usize) -> usize
        requires { rule < (held self.now).0 }
        ensures next { result ≡ start_of (held self.now).1 (rule + 1) }
        ensures onward { start_of (held self.now).1 rule ≤ result }
        ensures within { result ≤ length (held self.now).1 }
    {
        self.starts.get(rule + 1).unwrap_or(self.rows.len())
    }

    // How many property rows a rule has.
    pub fn reach(&self, rule: usize) -> Result<usize, ReachRefusal>
        ensures { result ≡ reach_in (held self.now) rule }
    {
        let start = self.start(rule).ok_or(ReachRefusal::NoSuchRule)?;
        Ok(property_rows(&self.rows()[start..self.behind(rule)]))
    }
}
