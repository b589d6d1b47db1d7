//! What the two programs that decrypt share.

#![tactic(auto)]

pub mod message;
pub mod rank;
pub mod rows;

pub use rank::Rank;
pub use rank::parsing::UnknownRank;
pub use rows::Rows;
