#![tactic(auto)]

mod check;
pub mod pair;
pub mod redundant;
pub mod ring;

pub use pair::{Pair, Residues};
pub use redundant::Redundant;
pub use ring::GuardedRing;
