// The possible delimiters of a scope, found one by one.
ghost use Rattle.lists.specs.ShortLists.{items};
ghost use Rattle.judging.specs.Asking.{CanAsk};
ghost use Rattle.judging.specs.Seeking.{NextPlace, Sought};

use crate::matter::Matter;
use crate::progress::Known;
use crate::windows::event_at;
use crate::working::{Found, PlacesRow};
use logs::log::ReadingLog;
use rules::row::Pick;

// The next place of those still to be tried, and the others, if there is one.
fn next_place(pick: Pick, left: (u16, u16)) -> Option<(u16, (u16, u16))>
    ensures { NextPlace pick left result }
{
    let (from, to) = left;
    if to <= from {
        return None;
    }
    match pick {
        Pick::First | Pick::Each => Some((from, (from + 1, to))),
        Pick::Last => Some((to - 1, (from, to - 1))),
    }
}

impl<'a, L: ReadingLog> Matter<'a, L> {
    // The next place where the property has to be judged. The event there is then bound.
    pub(crate) fn seek(&self, row: &PlacesRow, known: &mut Known) -> Option<Found>
        requires { CanAsk self.now.rows.now row.now.scoping.test (items known.old) }
        ensures { Sought (L.events self.now.log.now) self.now.rows.now row.now.scoping row.now.verdict row.now.left (items known.old) (items known.new) result }
    {
        let scoping = row.scoping;
        let depth = known.len();
        let mut left = row.left;
        while let Some((place, others)) = next_place(scoping.pick, left) {
            let event = event_at(self.log, place);
            let test = self.ask(scoping.test, scoping.name, event, place, known);
            left = others;
            if row.is_needed(test) {
                return Some(Found {
                    place,
                    time: event.time,
                    test,
                    left,
                });
            }
            known.truncate(depth);
        }
        None
    }
}
