// What is done with a page: rights, the verdict on a match, the tablewalk; and the worked values of the rules.
#![tactic(auto)]

pub mod attempt;
pub mod figures;
pub mod rights;
pub mod verdict;
pub mod walk;
