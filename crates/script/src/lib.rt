// The bench language: how scripts read.
#![tactic(auto)]

mod form;
pub mod line;
mod name;
mod number;
mod pieces;
pub mod reader;
