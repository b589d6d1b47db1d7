//! What the programs read of their input.

#![tactic(auto)]

#[cfg(test)]
mod examples;
mod reading;

pub use reading::{ReadError, numbers};
