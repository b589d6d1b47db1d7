ghost use Rattle.std.specs.Prelude.{◌≡◌};
ghost use Rattle.histories.specs.Calls.{form_of};
ghost use Rattle.histories.specs.Kinds.{kind_of};

use crate::index::Index;
use crate::register::Form;

/// What is loaded into a register: a polynomial, or a transform.
#[derive(Clone, Copy, PartialEq, Eq, Debug)]
pub enum Kind {
    Polynomial,
    Transform,
}

/// The form of what is loaded.
impl From<Kind> for Form {
    ghost from_gives = { λ kind form. form ≡ form_of (kind_of kind) };

    fn from(kind: Kind) -> Form {
        match kind {
            Kind::Polynomial => Form::Natural,
            Kind::Transform => Form::Transformed,
        }
    }
}

/// What joins two registers: their sum, their difference, or the product of transforms slot by slot.
#[derive(Clone, Copy, PartialEq, Eq, Debug)]
pub enum Operation {
    Plus,
    Minus,
    Times,
}

/// What joins two registers: d gets the sum, the difference or the product of a and b.
#[derive(Clone, Copy, PartialEq, Eq, Debug)]
pub struct Join {
    pub operation: Operation,
    pub d: Index,
    pub a: Index,
    pub b: Index,
}
