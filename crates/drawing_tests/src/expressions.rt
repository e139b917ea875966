//! Expressions written as bytes: which are right, what they are worth, and the exchange of two names.
mod building;
mod checks;
mod exchanges;
mod values;
