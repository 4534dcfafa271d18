// Board memories behind one trait: RAM, ROM, void and banks of them.
#![tactic(auto)]

pub mod bank;
pub mod bus;
mod bytes;
pub mod memory;
pub mod ram;
pub mod rom;
#[cfg(test)]
mod tests;
pub mod void;
