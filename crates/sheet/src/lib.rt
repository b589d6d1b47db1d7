#![tactic(auto)]

pub mod bytes;
pub mod field;
pub mod fields;
pub(crate) mod header;
pub(crate) mod kind;
pub mod limits;
pub mod parts;
pub mod read;
pub mod tags;
pub mod tiling;

pub use bytes::{coefficient, read_coefficients};
pub use field::{Field, Placed};
pub use fields::Fields;
pub use parts::{Layer, Load, Operands};
pub use read::read_field;
pub use tiling::{Extent, survey};
