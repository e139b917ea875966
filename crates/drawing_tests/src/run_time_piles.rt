//! Drawings that are piled while the test runs.
mod alike;
mod deep;
mod joins;
mod layers;
mod parts;
