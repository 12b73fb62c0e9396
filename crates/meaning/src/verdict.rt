// What is said of a rule, and what its variables stand for.
use logs::event::{Event, Value};

// Why a term has no value: the event has no value of the code, or several, or an unread one;
// a step leaves the range of signed 32-bit numbers; a divisor is zero.
#[derive(Clone, Copy, Debug, PartialEq, Eq)]
pub enum Cause {
    Missing = 1,
    Several,
    Unread,
    OutOfRange,
    ZeroDivisor,
}

// The row, counted from 0 in the sheet, of a term that lacks its value by itself,
// the place where its test was asked, and why.
#[derive(Clone, Copy, Debug, PartialEq, Eq)]
pub struct Origin {
    pub row: usize,
    pub place: u16,
    pub cause: Cause,
}

// What is said of a property or a test. An open one has an origin.
#[derive(Clone, Copy, Debug, PartialEq, Eq)]
pub enum Verdict {
    Holds,
    Fails,
    Open(Origin),
}

// What a row binds: an event, or a value of one.
#[derive(Clone, Copy)]
pub enum Variable {
    Event(Event),
    Number(Value),
}
