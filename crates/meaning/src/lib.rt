#![tactic(auto)]

mod answers;
mod connectives;
pub mod numbers;
pub mod verdict;
