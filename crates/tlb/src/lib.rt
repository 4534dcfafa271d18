// What the TLBs are made of: registers and their fields, pages, entries, the search.
#![tactic(auto)]

mod bits;
pub mod control;
pub mod descriptor;
pub mod entry;
pub mod page;
pub mod register;
pub mod search;
pub mod source;
