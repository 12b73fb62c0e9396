// A rule judged over a log, row by row, with the rows that wait on a stack.
ghost use Rattle.std.specs.Prelude.{◌≡◌, ◌<◌, [], ◌∷◌, length};
ghost use Rattle.judging.specs.Machine.{judged_at, Standing, Waiting, ReadyAt, ReadyForPlaces, OnwardAsked, OnwardTold, OnwardTried};
ghost use Rattle.stacks.specs.Stacks.{held};

use crate::combine::connect;
use crate::matter::Matter;
use crate::progress::Progress;
use crate::windows::cut;
use crate::working::{JudgingRow, LeftRow, PlacesRow, Quantifying, Scoping, Turn, ValuesRow};
use logs::log::ReadingLog;
use meaning::verdict::Verdict;
use rules::row::Row;
use std::ops::ControlFlow::{Break, Continue};

impl<'a, L: ReadingLog> Matter<'a, L> {
    // One turn: to the next delimiter of a scope where its property has to be judged, or past the scope.
    fn try_next(&self, row: PlacesRow, progress: &mut Progress) -> Turn
        requires ready { ReadyForPlaces (L.events self.now.log.now) self.now.rows.now progress.old row }
        ensures onward { OnwardTried (L.events self.now.log.now) self.now.rows.now progress.old row progress.new result }
    {
        let depth = progress.known.len();
        match self.seek(&row, &mut progress.known) {
            None => Turn::Told {
                verdict: row.ending(),
            },
            Some(found) => {
                let lowest = row.doubt(found.test);
                progress.suspend(JudgingRow::Places(PlacesRow {
                    depth,
                    left: found.left,
                    test: found.test,
                    lowest,
                    ..row
                }));
                Turn::Ask {
                    at: row.scoping.body,
                    window: cut(
                        self.log,
                        row.scoping.side,
                        row.scoping.duration,
                        found.place,
                        found.time,
                        row.window,
                    ),
                }
            }
        }
    }

    // One turn, where the property of a scope has the verdict v at one more delimiter.
    fn tell_place(&self, row: PlacesRow, v: Verdict, progress: &mut Progress) -> Turn
        requires waits { Waiting (L.events self.now.log.now) self.now.rows.now progress.old (JudgingRow.Places row ∷ held progress.old.stack) }
        ensures onward { OnwardTold (L.events self.now.log.now) self.now.rows.now progress.old (JudgingRow.Places row) v progress.new result }
    {
        progress.known.truncate(row.depth);
        match row.absorb(v) {
            Break(verdict) => Turn::Told { verdict },
            Continue(verdict) => self.try_next(PlacesRow { verdict, ..row }, progress),
        }
    }

    // One turn, where the property that `waiting` waits for has the verdict v.
    fn ascend(&self, waiting: JudgingRow, v: Verdict, progress: &mut Progress) -> Turn
        requires waits { Waiting (L.events self.now.log.now) self.now.rows.now progress.old (waiting ∷ held progress.old.stack) }
        ensures onward { OnwardTold (L.events self.now.log.now) self.now.rows.now progress.old waiting v progress.new result }
    {
        match waiting {
            JudgingRow::Negation => Turn::Told {
                verdict: v.negate(),
            },
            JudgingRow::Left(row) => progress.tell_left(row, v),
            JudgingRow::Right { connective, left } => Turn::Told {
                verdict: connect(connective, left, v),
            },
            JudgingRow::Values(row) => progress.tell_value(row, v),
            JudgingRow::Places(row) => self.tell_place(row, v, progress),
        }
    }

    // One turn, at a row.
    fn descend(&self, at: usize, window: (u16, u16), progress: &mut Progress) -> Turn
        requires within { at < length self.now.rows.now }
        requires ready { ReadyAt (L.events self.now.log.now) self.now.rows.now progress.old at window }
        ensures onward { OnwardAsked (L.events self.now.log.now) self.now.rows.now progress.old at window progress.new result }
    {
        let row = self.rows[at];
        match row {
            Row::Not => {
                progress.suspend(JudgingRow::Negation);
                Turn::Ask { at: at + 1, window }
            }
            Row::Connect { connective } => {
                let right = self.ends[at + 1];
                let depth = progress.known.len();
                progress.suspend(JudgingRow::Left(LeftRow {
                    connective,
                    right,
                    window,
                    depth,
                }));
                Turn::Ask { at: at + 1, window }
            }
            Row::Occurrence { name, count } => Turn::Told {
                verdict: self.occurs(at + 1, name, count, window, &mut progress.known),
            },
            Row::Absence { name } => Turn::Told {
                verdict: self
                    .occurs(at + 1, name, 1, window, &mut progress.known)
                    .negate(),
            },
            Row::Scope {
                side,
                pick,
                name,
                duration,
            } => {
                let scoping = Scoping {
                    side,
                    pick,
                    name,
                    duration,
                    test: at + 1,
                    body: self.ends[at + 1],
                };
                self.try_next(PlacesRow::new(scoping, window), progress)
            }
            Row::Quantify {
                quantifier,
                variable,
                code,
            } => {
                let quantifying = Quantifying {
                    quantifier,
                    variable,
                    code,
                    body: at + 1,
                };
                progress.next_value(ValuesRow::new(quantifying, window))
            }
            _ => unreachable!(),
        }
    }

    // The verdict of the property at a row, over the whole log.
    pub(crate) fn run(&self, at: usize, work: &mut [JudgingRow]) -> Verdict
        requires stands { Standing self.now.rows.now 0 at 0 (length work.old) }
        ensures { result ≡ judged_at (L.events self.now.log.now) self.now.rows.now [] (0, length (L.events self.now.log.now)) at }
    {
        let mut progress = Progress::new(work);
        let mut turn = Turn::Ask {
            at,
            window: (0, self.log.len()),
        };
        loop {
            turn = match turn {
                Turn::Ask { at, window } => self.descend(at, window, &mut progress),
                Turn::Told { verdict } => match progress.stack.pop() {
                    None => return verdict,
                    Some(waiting) => self.ascend(waiting, verdict, &mut progress),
                },
            };
        }
    }
}
