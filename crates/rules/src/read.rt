// Rows read one after another, each as a part that the rows before it want.
ghost use Rattle.std.specs.Prelude.{◌≡◌, ℕ, ◌≤◌, [], ◌∷◌, length, slice_get, IfOk};
ghost use Rattle.std.specs.Result.{result_err};
ghost use Rattle.lists.specs.ShortLists.{items};
ghost use Rattle.rules.specs.declared.known.Sort.TheVariants.{Event};
ghost use Rattle.rules.specs.Decoded.{when};
ghost use Rattle.rules.specs.Wanted.{property, test, known_as, binding, quantified, part_of, wants, followed, first_bad};
ghost use Rattle.rules.specs.Limits.{most_rules};
ghost use Rattle.rules.specs.Layout.{rules_wanted};
ghost use Rattle.rules.specs.Sheets.{answer_to};
ghost use Rattle.rules.specs.Written.{started, begins_test};
ghost use Rattle.rules.specs.Reading.{sorts, asked, shown, ReadAt};

use crate::known::{Known, Sort};
use crate::limits::MOST_RULES;
use crate::row::Row;
use crate::sheet::InspectRefusal;
use lists::ShortList;

#[derive(Clone, Copy, Debug, PartialEq, Eq)]
pub enum Part {
    Property,
    Test,
    Term,
}

// A part that is wanted, and the variables known in it.
#[derive(Clone, Copy)]
pub struct Want {
    pub part: Part,
    pub known: Known,
}

// What a row wants to be followed by.
#[derive(Clone, Copy)]
pub enum Followed {
    Nothing,
    One(Want),
    Two(Want, Want),
}

fn testing(known: Known) -> Option<Followed>
    ensures { shown result ≡ binding (sorts known) Event (λ η. test η ∷ []) }
{
    let known = known.with(Sort::Event)?;
    Some(Followed::One(Want {
        part: Part::Test,
        known,
    }))
}

fn scoping(known: Known) -> Option<Followed>
    ensures { shown result ≡ binding (sorts known) Event (λ η. test η ∷ property η ∷ []) }
{
    let known = known.with(Sort::Event)?;
    Some(Followed::Two(
        Want {
            part: Part::Test,
            known,
        },
        Want {
            part: Part::Property,
            known,
        },
    ))
}

fn quantifying(known: Known, variable: u8) -> Option<Followed>
    ensures { shown result ≡ quantified (sorts known) variable }
{
    naming(known, Sort::Event, variable)?;
    let known = known.with(Sort::Number)?;
    Some(Followed::One(Want {
        part: Part::Property,
        known,
    }))
}

fn naming(known: Known, sort: Sort, variable: u8) -> Option<Followed>
    ensures { shown result ≡ when (known_as sort (sorts known) variable) [] }
{
    known.knows(sort, variable).then_some(Followed::Nothing)
}

// The part that a row begins.
pub(crate) fn part_of(row: Row) -> Part
    ensures { result ≡ part_of row }
{
    match row {
        Row::Not
        | Row::Connect { .. }
        | Row::Occurrence { .. }
        | Row::Absence { .. }
        | Row::Scope { .. }
        | Row::Quantify { .. } => Part::Property,
        Row::True | Row::NotTest | Row::Join { .. } | Row::Compare { .. } => Part::Test,
        Row::Constant { .. }
        | Row::Time { .. }
        | Row::Value { .. }
        | Row::Number { .. }
        | Row::Reckon { .. } => Part::Term,
    }
}

// Whether there is such a row, and a test begins with it.
pub(crate) fn is_test_at(rows: &[Row], at: usize) -> bool
    ensures { result ≡ begins_test rows.now at }
{
    rows.get(at).is_some_and(|row| part_of(*row) == Part::Test)
}

// What a row wants behind it, the variables known being these.
fn wanted_by(row: Row, known: Known) -> Option<Followed>
    ensures { shown result ≡ wants (sorts known) row }
{
    let property = Want {
        part: Part::Property,
        known,
    };
    let test = Want {
        part: Part::Test,
        known,
    };
    let term = Want {
        part: Part::Term,
        known,
    };
    match row {
        Row::Not => Some(Followed::One(property)),
        Row::Connect { .. } => Some(Followed::Two(property, property)),
        Row::Occurrence { .. } | Row::Absence { .. } => testing(known),
        Row::Scope { .. } => scoping(known),
        Row::Quantify { variable, .. } => quantifying(known, variable),
        Row::True | Row::Constant { .. } => Some(Followed::Nothing),
        Row::NotTest => Some(Followed::One(test)),
        Row::Join { .. } => Some(Followed::Two(test, test)),
        Row::Compare { .. } | Row::Reckon { .. } => Some(Followed::Two(term, term)),
        Row::Time { variable } | Row::Value { variable, .. } => naming(
            known,
            Sort::Event,
            variable,
        ),
        Row::Number { variable } => naming(known, Sort::Number, variable),
    }
}

// The same where `want` is wanted, which the row must begin.
fn behind(want: Want, row: Row) -> Option<Followed>
    ensures { shown result ≡ followed (asked want) row }
{
    if want.part == part_of(row) {
        wanted_by(row, want.known)
    } else {
        None
    }
}

// The row behind the part that is wanted at `at`, or the first bad row.
pub(crate) fn read(rows: &[Row], at: usize, want: Want) -> Result<usize, InspectRefusal>
    requires { at ≤ length rows.now }
    ensures { ReadAt rows.now at (asked want) result }
{
    let bad = InspectRefusal::Layout { row: at };
    let row = rows.get(at).ok_or(bad)?;
    match behind(want, *row).ok_or(bad)? {
        Followed::Nothing => Ok(at + 1),
        Followed::One(first) => read(rows, at + 1, first),
        Followed::Two(first, second) => {
            let mid = read(rows, at + 1, first)?;
            read(rows, mid, second)
        }
    }
}

// Where each of so many rules starts, or the first bad row where these are wanted.
pub(crate) fn check_rules(
    rows: &[Row],
    rules: usize,
) -> Result<ShortList<usize, MOST_RULES>, InspectRefusal>
    requires { rules ≤ most_rules }
    ensures bad { result_err result ≡ result_err (answer_to (first_bad 0 rows.now (rules_wanted rules))) }
    ensures many { IfOk result (λ starts. length (items starts) ≡ rules) }
    ensures begun { IfOk result (λ starts. (i : ℕ) → slice_get (items starts) i ≡ started rules rows.now i) }
{
    let rule = Want {
        part: Part::Property,
        known: Known::nothing(),
    };
    let mut starts = ShortList::new(0);
    let mut at = 0;
    for _i in 0..rules {
        starts.push(at).unwrap();
        at = read(rows, at, rule)?;
    }
    if at < rows.len() {
        return Err(InspectRefusal::Layout { row: at });
    }
    Ok(starts)
}
