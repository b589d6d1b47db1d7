#![tactic(auto)]

mod scratch;
pub mod workspace;

pub use algebra::Direction;
pub use histories::Form;
pub use rings::Refusal;
pub use workspace::Workspace;
