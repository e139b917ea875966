//! Tests of units. The expected verdicts are worked out by hand from the rules.
#![tactic(auto)]

#[cfg(test)]
mod claiming;
#[cfg(test)]
mod judged;
#[cfg(test)]
mod parts;
#[cfg(test)]
mod peterson;
#[cfg(test)]
mod piled;
#[cfg(test)]
mod tables;
