use engine::Layer;
use histories::{Form, Index};

/// The next layer of a register, and the form that it leaves.
#[derive(Clone, Copy, PartialEq, Eq, Debug)]
pub struct Turn {
    pub register: Index,
    pub layer: Layer,
    pub next: Form,
}
