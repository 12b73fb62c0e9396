// What a log means, and how it is read.
ghost use Rattle.std.specs.Prelude.{◌≡◌, ℕ, List, length};
ghost use Rattle.std.specs.List.{slice_get};
ghost use Rattle.logs.specs.declared.event.Event.{Event as Ev};
ghost use Rattle.logs.specs.Lawful.{Lawful};

use crate::event::Event;

// A log means a list of events and a limit. Reading alters nothing.
pub trait ReadingLog {
    ghost events: { Self → List Ev };

    ghost bound: { Self → ℕ };

    // Of every log: times never fall, it is no longer than its limit, this is at most 65,535, and each event is within its bounds.
    ghost laws: { (log : Self) → Lawful (events log) (bound log) };

    fn len(&self) -> u16
        ensures { result ≡ length (events self.now) };

    fn limit(&self) -> u16
        ensures { result ≡ bound self.now };

    // The event at a place, counted from 0, or none.
    fn get(&self, place: u16) -> Option<Event>
        ensures { result ≡ slice_get (events self.now) place };
}
