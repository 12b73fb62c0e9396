// What a judging changes, and the turns that need nothing else.
ghost use Rattle.std.specs.Prelude.{◌≡◌, ◌<◌, List, [], ◌∷◌, length, take};
ghost use Rattle.logs.specs.declared.event.Event.{Event as Ev};
ghost use Rattle.rules.specs.declared.row.Row.{Row as SheetRow};
ghost use Rattle.rules.specs.Limits.{deepest};
ghost use Rattle.lists.specs.ShortLists.{items};
ghost use Rattle.judging.specs.Machine.{decided, combined, settles, HasRoom, Waiting, ReadyForValues, OnwardTold, OnwardValued};
ghost use Rattle.stacks.specs.Stacks.{held, room};

use crate::slots::next_coded;
use crate::term::known_event;
use crate::working::{JudgingRow, LeftRow, Turn, ValuesRow};
use lists::ShortList;
use logs::event::Value;
use meaning::verdict::{Variable, Verdict};
use rules::limits::DEEPEST;
use rules::row::{Connective, Quantifier};
use stacks::Stack;

// The variables that the rows around a row have bound, the outermost first.
pub(crate) type Known = ShortList<Variable, DEEPEST>;

// The variables that are known, and the rows that wait, the newest on top.
#[derive(Drop)]
pub(crate) struct Progress<'a> {
    pub(crate) known: Known,
    pub(crate) stack: Stack<'a, JudgingRow>,
}

// The verdict of a connective that its left side decides.
fn decide(connective: Connective, left: Verdict) -> Option<Verdict>
    ensures { result ≡ decided connective left }
{
    match (connective, left) {
        (Connective::Or, Verdict::Holds) => Some(Verdict::Holds),
        (Connective::And, Verdict::Fails) => Some(Verdict::Fails),
        (Connective::Implies, Verdict::Fails) => Some(Verdict::Holds),
        _ => None,
    }
}

// A quantifier with one more value.
fn gather(quantifier: Quantifier, so_far: Verdict, v: Verdict) -> Verdict
    ensures { result ≡ combined quantifier so_far v }
{
    match quantifier {
        Quantifier::Forall => so_far.and(v),
        Quantifier::Exists => so_far.or(v),
    }
}

// Whether further values cannot change a quantifier's verdict.
fn is_settled(quantifier: Quantifier, so_far: Verdict) -> bool
    ensures { result ≡ settles quantifier so_far }
{
    matches!(
        (quantifier, so_far),
        (Quantifier::Forall, Verdict::Fails) | (Quantifier::Exists, Verdict::Holds)
    )
}

impl<'a> Progress<'a> {
    // Nothing is known, and nothing waits.
    pub(crate) fn new(work: &'a mut [JudgingRow]) -> Progress<'a>
        ensures known { items result.known ≡ [] }
        ensures waiting { held result.stack ≡ [] }
        ensures space { room result.stack ≡ length work.old }
    {
        Progress {
            known: Known::new(Variable::Number(Value::Unread { code: 0 })),
            stack: Stack::new(work),
        }
    }

    // One more row waits.
    pub(crate) fn suspend(&mut self, row: JudgingRow)
        requires { HasRoom self.old }
        ensures known { items self.new.known ≡ items self.old.known }
        ensures waiting { held self.new.stack ≡ row ∷ held self.old.stack }
        ensures space { room self.new.stack ≡ room self.old.stack }
    {
        self.stack.push(row).unwrap();
    }

    // One turn: to the next value of a quantifier, or past the quantifier.
    pub(crate) fn next_value(&mut self, row: ValuesRow) -> Turn
        requires variable { length (items self.old.known) < deepest }
        requires row { HasRoom self.old }
        ensures onward { (es : List Ev) (rs : List SheetRow) → ReadyForValues es rs self.old row → OnwardValued es rs self.old row self.new result }
        ensures space { room self.new.stack ≡ room self.old.stack }
    {
        let depth = self.known.len();
        let event = known_event(self.known.as_slice(), row.quantifying.variable);
        match next_coded(&event, row.quantifying.code, row.next) {
            None => Turn::Told {
                verdict: row.verdict,
            },
            Some((found, value)) => {
                self.suspend(JudgingRow::Values(ValuesRow {
                    depth,
                    next: found + 1,
                    ..row
                }));
                self.known.push(Variable::Number(value)).unwrap();
                Turn::Ask {
                    at: row.quantifying.body,
                    window: row.window,
                }
            }
        }
    }

    // One turn, where the left side of a connective has the verdict v.
    pub(crate) fn tell_left(&mut self, row: LeftRow, v: Verdict) -> Turn
        requires row { HasRoom self.old }
        ensures onward { (es : List Ev) (rs : List SheetRow) → Waiting es rs self.old (JudgingRow.Left row ∷ held self.old.stack) → OnwardTold es rs self.old (JudgingRow.Left row) v self.new result }
        ensures space { room self.new.stack ≡ room self.old.stack }
    {
        self.known.truncate(row.depth);
        if let Some(verdict) = decide(row.connective, v) {
            return Turn::Told { verdict };
        }
        self.suspend(JudgingRow::Right {
            connective: row.connective,
            left: v,
        });
        Turn::Ask {
            at: row.right,
            window: row.window,
        }
    }

    // One turn, where the property of a quantifier has the verdict v for one more value.
    pub(crate) fn tell_value(&mut self, row: ValuesRow, v: Verdict) -> Turn
        requires variable { length (take row.depth (items self.old.known)) < deepest }
        requires row { HasRoom self.old }
        ensures onward { (es : List Ev) (rs : List SheetRow) → Waiting es rs self.old (JudgingRow.Values row ∷ held self.old.stack) → OnwardTold es rs self.old (JudgingRow.Values row) v self.new result }
        ensures space { room self.new.stack ≡ room self.old.stack }
    {
        self.known.truncate(row.depth);
        let verdict = gather(row.quantifying.quantifier, row.verdict, v);
        if is_settled(row.quantifying.quantifier, verdict) {
            return Turn::Told { verdict };
        }
        self.next_value(ValuesRow { verdict, ..row })
    }
}
