// Examples of the bench language, at its limits. The crate has no code of its own.
#![tactic(auto)]

#[cfg(test)]
mod inputs;
#[cfg(test)]
mod lines;
#[cfg(test)]
mod numbers;
#[cfg(test)]
mod texts;
