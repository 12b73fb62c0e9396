// Events and the values that they carry.

// The number of slots for values in an event.
pub const SLOTS: usize = 4;

// The highest time of an event, in milliseconds.
pub const LATEST: u32 = 2_147_483_647;

// A value of an event: its code, and its number once it is read.
#[derive(Clone, Copy, PartialEq, Eq, Debug)]
pub enum Value {
    Unread { code: u8 },
    Read { code: u8, number: i32 },
}

// What a logger noted at one time. The first `count` slots are in use.
#[derive(Clone, Copy, PartialEq, Eq, Debug)]
pub struct Event {
    pub time: u32,
    pub name: u8,
    pub count: u8,
    pub slots: [Value; SLOTS],
}

mod methods;
