#![tactic(auto)]

pub mod event;
pub mod image;
pub mod log;
