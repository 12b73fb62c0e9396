// The code of a value, the blank event, and the bounds of an event.
ghost use Rattle.std.specs.Prelude.{◌≡◌};
ghost use Rattle.logs.specs.Events.{code_of, slot_in, slots_in, in_bounds, blank};

use crate::event::{Event, LATEST, SLOTS, Value};

impl Value {
    pub fn code(self) -> u8
        ensures { result ≡ code_of self }
    {
        match self {
            Value::Unread { code } => code,
            Value::Read { code, number: _ } => code,
        }
    }
}

impl Event {
    // The event with nothing in it.
    pub fn blank() -> Event
        ensures { result ≡ blank }
    {
        Event {
            time: 0,
            name: 0,
            count: 0,
            slots: [Value::Unread { code: 0 }; SLOTS],
        }
    }

    pub fn in_bounds(&self) -> bool
        ensures { result ≡ in_bounds self.now }
    {
        self.time <= LATEST
            && 0 < self.name
            && self.count as usize <= SLOTS
            && slots_in(self.count, &self.slots)
    }
}

fn slot_in(used: bool, value: Value) -> bool
    ensures { result ≡ slot_in used value }
{
    match value {
        Value::Unread { code } => (0 < code) == used,
        Value::Read { code, number: _ } => used && 0 < code,
    }
}

fn slots_in(count: u8, slots: &[Value]) -> bool
    ensures { result ≡ slots_in count 0 slots.now }
{
    slots
        .iter()
        .enumerate()
        .all(|(i, value)| slot_in(i < count as usize, *value))
}
