//! Tests of scripts, line by line. The expected answers are worked out by hand from the rules.
#![tactic(auto)]

#[cfg(test)]
mod answers;
#[cfg(test)]
mod drawings;
#[cfg(test)]
mod hex_words;
#[cfg(test)]
mod running;
#[cfg(test)]
mod wrong_lines;
