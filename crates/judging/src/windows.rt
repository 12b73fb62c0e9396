// The windows that scopes judge, as pairs (from, to) of places, the second outside.
ghost use Rattle.std.specs.Prelude.{◌≡◌, ◌+◌, ◌<◌, ◌≤◌, length, nat_lt};
ghost use Rattle.logs.specs.Events.{event_at};
ghost use Rattle.logs.specs.Lawful.{time_at};
ghost use Rattle.meaning.specs.Three.{count};
ghost use Rattle.meaning.specs.Windows.{places, window as window_at};

use logs::event::Event;
use logs::log::ReadingLog;
use rules::row::Side;

// The event at a place, or the blank one.
pub(crate) fn event_at<L: ReadingLog>(log: &L, place: u16) -> Event
    ensures { result ≡ event_at (L.events log.now) place }
{
    log.get(place).unwrap_or(Event::blank())
}

// The first place of the window with a time of at least `limit`, found by halving, or the window's end.
fn first_from<L: ReadingLog>(log: &L, limit: u64, window: (u16, u16)) -> u16
    requires { window.1 ≤ length (L.events log.now) }
    ensures { result ≡ window.0 + count (λ j. nat_lt (time_at (L.events log.now) j) limit) (places window.0 window.1) }
{
    let (mut low, mut high) = window;
    while low < high {
        let middle = low + (high - low) / 2;
        if (event_at(log, middle).time as u64) < limit {
            low = middle + 1;
        } else {
            high = middle;
        }
    }
    low
}

// The window that a scope judges at a place, an event at `time`, of its own window.
pub(crate) fn cut<L: ReadingLog>(
    log: &L,
    side: Side,
    duration: u32,
    place: u16,
    time: u32,
    window: (u16, u16),
) -> (u16, u16)
    requires place { place < window.1 }
    requires within { window.1 ≤ length (L.events log.now) }
    requires time { time ≡ time_at (L.events log.now) place }
    ensures { result ≡ window_at side (time_at (L.events log.now)) duration place window }
{
    let (from, to) = window;
    match side {
        Side::After if duration == 0 => (place + 1, to),
        Side::After => {
            let limit = time as u64 + duration as u64;
            (place + 1, first_from(log, limit, (place + 1, to)))
        }
        Side::Before if duration == 0 => (from, place),
        Side::Before => {
            let limit = (time as u64 + 1).saturating_sub(duration as u64);
            (first_from(log, limit, (from, place)), place)
        }
        Side::Given => window,
    }
}
