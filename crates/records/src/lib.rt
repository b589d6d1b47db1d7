#![tactic(auto)]

pub mod checks;
pub(crate) mod forms;
pub mod joins;
mod modulus;
pub mod table;
pub mod turn;

pub use checks::{check_clear, check_load, check_refresh, check_release, check_turn};
pub use joins::check_join;
pub use table::Table;
pub use table::changes::loaded;
pub use turn::Turn;
