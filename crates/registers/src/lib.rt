#![tactic(auto)]

// Words are a slice, and that it has 2048 of them is a clause: C lends a slice, and a workspace refuses another length in the order
// of its checks. An array type would ask for a second test of the length, which could not fail. The ring and its words stay two parameters:
// a struct that holds a `&mut` beside a ghost field on what it points to is not covered by the borrow checker.

pub mod compare;
pub mod fill;
pub mod join;
pub mod product;
mod row;
pub mod turn;

pub use compare::{hand_out, residues_agree, test_register};
pub use fill::{load_register, refresh_register, wipe};
pub use join::join_registers;
pub use turn::turn_register;
