#![tactic(auto)]

mod blinded;
mod calls;
mod checks;

pub use algebra::Direction;
pub use blinded::forward_guarded;
pub use calls::{forward, inverse, layer, multiply};
