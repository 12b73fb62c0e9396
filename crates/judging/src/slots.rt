// The values of one code among the slots of an event.
ghost use Rattle.std.specs.Prelude.{◌≡◌};
ghost use Rattle.meaning.specs.Terms.{only, reading, coded};
ghost use Rattle.judging.specs.Slots.{NextCoded};

use logs::event::{Event, Value};
use meaning::verdict::Cause;

pub(crate) fn number_of(value: Value) -> Result<i32, Cause>
    ensures { result ≡ reading value }
{
    match value {
        Value::Unread { .. } => Err(Cause::Unread),
        Value::Read { number, .. } => Ok(number),
    }
}

// The first slot in use, from `from` on, whose value has the code, and that value.
pub(crate) fn next_coded(event: &Event, code: u8, from: usize) -> Option<(usize, Value)>
    ensures { NextCoded event.now code from result }
{
    for slot in from..event.slots.len().min(event.count as usize) {
        let value = event.slots[slot];
        if value.code() == code {
            return Some((slot, value));
        }
    }
    None
}

// The number of the only value with the code.
pub(crate) fn only_coded(event: &Event, code: u8) -> Result<i32, Cause>
    ensures { result ≡ only (coded code event.now) }
{
    let (slot, value) = next_coded(event, code, 0).ok_or(Cause::Missing)?;
    match next_coded(event, code, slot + 1) {
        Some(_) => Err(Cause::Several),
        None => number_of(value),
    }
}
