// One translation unit over one memory: what every call means, and the promises over whole lives of calls.
#![tactic(auto)]

pub mod access;
pub mod drops;
pub mod life;
pub mod load;
pub mod look;
pub mod promises;
pub mod registers;
pub mod request;
pub mod resolve;
pub mod tally;
pub mod twin;
pub mod unit;
