#![tactic(auto)]

mod asking;
mod combine;
mod extents;
pub mod judge;
mod machine;
mod matter;
mod occurrence;
mod progress;
mod question;
mod seeking;
mod slots;
mod sweep;
mod tally;
mod term;
mod testing;
mod windows;
pub mod working;
