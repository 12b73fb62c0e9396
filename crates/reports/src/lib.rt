#![tactic(auto)]

pub mod input;
pub mod judged;
pub mod line;
pub mod report;
