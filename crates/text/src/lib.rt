// The bench language: how answers print, and the canonical form of a call.
#![tactic(auto)]

pub mod answer_line;
pub mod answers;
pub mod canonical;
