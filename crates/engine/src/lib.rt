#![tactic(auto)]

mod butterfly;
mod group;
pub mod index;
pub mod layer;
pub mod masked;
pub mod masks;
pub mod product;
pub mod whole;

pub use masked::{Layer, MaskedLayer};
