#![tactic(auto)]

pub mod checks;
pub mod divisor;
pub mod plain;
pub mod reduction;
pub mod refusal;
pub mod ring;

pub use divisor::Divisor;
pub use plain::Plain;
pub use refusal::Refusal;
pub use ring::Ring;
