//! Tests of drawings: gate lists, expressions, byte tables, and piles of these, typed and chosen at run time. The expected answers are worked
//! out by hand from the rules of the formats.
#![tactic(auto)]

#[cfg(test)]
mod expressions;
#[cfg(test)]
mod gate_lists;
#[cfg(test)]
mod run_time_piles;
#[cfg(test)]
mod tables;
#[cfg(test)]
mod typed_piles;
