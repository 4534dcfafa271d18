// What can be asked of a twin, how it answers, and how it refuses.
#![tactic(auto)]

pub mod answer;
pub mod call;
pub mod fault;
pub mod hex;
