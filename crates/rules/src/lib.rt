#![tactic(auto)]

mod decode;
mod known;
mod layout;
pub mod limits;
mod raw;
mod reach;
mod read;
pub mod row;
pub mod sheet;
