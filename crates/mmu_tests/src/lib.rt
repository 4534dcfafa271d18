// Examples of the unit's parts, with expectations worked out by hand. The crate has no code of its own.
#![tactic(auto)]

#[cfg(test)]
mod entries;
#[cfg(test)]
mod protection;
#[cfg(test)]
mod tables;
