#![tactic(auto)]

pub mod call;
pub mod index;
pub mod register;
pub mod statement;

pub use call::{Join, Kind, Operation};
pub use index::Index;
pub use register::{Form, Register};
