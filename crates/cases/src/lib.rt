#![tactic(auto)]

#[cfg(test)]
mod tests;
pub mod worked;
