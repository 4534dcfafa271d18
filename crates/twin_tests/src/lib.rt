// Examples of whole twins that no script can show, with expectations worked out by hand. The crate has no code of its own.
#![tactic(auto)]

#[cfg(test)]
mod looks;
#[cfg(test)]
mod piles;
#[cfg(test)]
mod replies;
