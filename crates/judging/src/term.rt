// The numbers of terms, by recursion over their rows.
ghost use Rattle.std.specs.Prelude.{◌≡◌, pos};
ghost use Rattle.rules.specs.Trees.{Term, Begins, term_rows};
ghost use Rattle.meaning.specs.Terms.{bound, event_in, value_in, step, blamed, strict, ranged};
ghost use Rattle.judging.specs.Answers.{TermAt};

use crate::question::Question;
use crate::slots::{number_of, only_coded};
use logs::event::{Event, Value};
use meaning::verdict::{Cause, Origin, Variable};
use rules::row::{Operation, Row};

// The event that a variable stands for.
pub(crate) fn known_event(known: &[Variable], variable: u8) -> Event
    ensures { result ≡ event_in (bound known.now variable) }
{
    match known.get(variable as usize) {
        Some(Variable::Event(event)) => *event,
        Some(Variable::Number(_)) | None => Event::blank(),
    }
}

// The value that a variable stands for.
fn known_value(known: &[Variable], variable: u8) -> Value
    ensures { result ≡ value_in (bound known.now variable) }
{
    match known.get(variable as usize) {
        Some(Variable::Number(value)) => *value,
        Some(Variable::Event(_)) | None => Value::Unread { code: 0 },
    }
}

fn time_of(event: Event) -> Result<i32, Cause>
    ensures { result ≡ ranged (pos event.time) }
{
    i32::try_from(event.time).map_err(|_| Cause::OutOfRange)
}

fn reckon(operation: Operation, x: i32, y: i32) -> Result<i32, Cause>
    ensures { result ≡ step operation x y }
{
    match operation {
        Operation::Sum => x.checked_add(y).ok_or(Cause::OutOfRange),
        Operation::Difference => x.checked_sub(y).ok_or(Cause::OutOfRange),
        Operation::Product => x.checked_mul(y).ok_or(Cause::OutOfRange),
        Operation::Quotient if y == 0 => Err(Cause::ZeroDivisor),
        Operation::Quotient => x.checked_div(y).ok_or(Cause::OutOfRange),
    }
}

impl Question<'_> {
    // What the term at a row lacks by itself has its origin there.
    fn blame(&self, row: usize, number: Result<i32, Cause>) -> Result<i32, Origin>
        ensures { result ≡ blamed self.now.place row number }
    {
        let place = self.place;
        number.map_err(|cause| Origin { row, place, cause })
    }

    fn combine(
        &self,
        row: usize,
        operation: Operation,
        x: Result<i32, Origin>,
        y: Result<i32, Origin>,
    ) -> Result<i32, Origin>
        ensures { result ≡ strict self.now.place row operation x y }
    {
        self.blame(row, reckon(operation, x?, y?))
    }

    // The number of the term whose rows begin at `at`, and the row behind it.
    pub(crate) fn term(&self, at: usize) -> (Result<i32, Origin>, usize)
        requires { (t : Term) × Begins self.now.rows.now at (term_rows t) }
        ensures { (t : Term) → Begins self.now.rows.now at (term_rows t) → TermAt self.now.known.now self.now.place at t result }
    {
        match self.row(at) {
            Row::Constant { number } => (Ok(number), at + 1),
            Row::Time { variable } => {
                let event = known_event(self.known, variable);
                (self.blame(at, time_of(event)), at + 1)
            }
            Row::Value { variable, code } => {
                let event = known_event(self.known, variable);
                (self.blame(at, only_coded(&event, code)), at + 1)
            }
            Row::Number { variable } => {
                let value = known_value(self.known, variable);
                (self.blame(at, number_of(value)), at + 1)
            }
            Row::Reckon { operation } => {
                let (x, mid) = self.term(at + 1);
                let (y, next) = self.term(mid);
                (self.combine(at, operation, x, y), next)
            }
            _ => unreachable!(),
        }
    }
}
