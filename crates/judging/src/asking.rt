// The test of a row at a place.
ghost use Rattle.std.specs.Prelude.{◌≡◌, if◌then◌else◌, nat_eq};
ghost use Rattle.meaning.specs.declared.verdict.Variable.TheVariants.{Event as as_event};
ghost use Rattle.meaning.specs.Terms.{◌⊕◌};
ghost use Rattle.rules.specs.Forest.{test_at};
ghost use Rattle.lists.specs.ShortLists.{items};
ghost use Rattle.judging.specs.Asking.{CanAsk};
ghost use Rattle.meaning.specs.Terms.{answer_for};

use crate::matter::Matter;
use crate::progress::Known;
use crate::question::Question;
use logs::event::Event;
use logs::log::ReadingLog;
use meaning::verdict::{Variable, Verdict};

impl<'a, L: ReadingLog> Matter<'a, L> {
    // Whether an event has the name and passes the test at a row. An event of the name stays bound.
    pub(crate) fn ask(
        &self,
        at: usize,
        name: u8,
        event: Event,
        place: u16,
        known: &mut Known,
    ) -> Verdict
        requires { CanAsk self.now.rows.now at (items known.old) }
        ensures answer { result ≡ answer_for event (items known.old) at name (test_at self.now.rows.now at) place }
        ensures known { items known.new ≡ (if nat_eq event.name name then (items known.old ⊕ as_event event) else items known.old) }
    {
        if event.name != name {
            return Verdict::Fails;
        }
        known.push(Variable::Event(event)).unwrap();
        let question = Question {
            rows: self.rows,
            known: known.as_slice(),
            place,
        };
        let (answer, _) = question.test(at);
        answer
    }
}
