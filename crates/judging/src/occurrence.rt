// How often a test is yes in a window.
ghost use Rattle.std.specs.Prelude.{◌≡◌};
ghost use Rattle.meaning.specs.Three.{at_least3};
ghost use Rattle.meaning.specs.Terms.{asked};
ghost use Rattle.meaning.specs.Windows.{within};
ghost use Rattle.rules.specs.Forest.{test_at};
ghost use Rattle.lists.specs.ShortLists.{items};
ghost use Rattle.judging.specs.Asking.{CanAsk};

use crate::matter::Matter;
use crate::progress::Known;
use crate::tally::Tally;
use crate::windows::event_at;
use logs::log::ReadingLog;
use meaning::verdict::Verdict;

impl<'a, L: ReadingLog> Matter<'a, L> {
    // Whether at least `count` tests of the window are yes. It stops as soon as further tests cannot change the verdict.
    pub(crate) fn occurs(
        &self,
        at: usize,
        name: u8,
        count: u16,
        window: (u16, u16),
        known: &mut Known,
    ) -> Verdict
        requires { CanAsk self.now.rows.now at (items known.old) }
        ensures answer { result ≡ at_least3 count (within window) (asked (L.events self.now.log.now) (items known.old) at name (test_at self.now.rows.now at)) }
        ensures known { items known.new ≡ items known.old }
    {
        let depth = known.len();
        let (from, to) = window;
        let mut tally = Tally::default();
        for place in from..to {
            if tally.is_unchanging(to - place, count) {
                return tally.weigh(count);
            }
            let answer = self.ask(at, name, event_at(self.log, place), place, known);
            known.truncate(depth);
            tally = tally.note(answer);
        }
        tally.weigh(count)
    }
}
