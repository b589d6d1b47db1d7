ghost use Rattle.std.specs.Prelude.{◌≡◌, ◌-◌, ◌≤◌, true};
ghost use Rattle.algebra.specs.Masks.{suits};

pub mod parsing;

/// The number of a layer, from 1 to 7.
#[derive(Clone, Copy, PartialEq, Eq, Debug)]
pub struct Layer {
    pub number: u8,
    ghost first: { 1 ≤ number },
    ghost last: { number ≤ 7 },
}

/// A layer with its masks: the words come under the list that the layer before took, and go under this layer's own.
#[derive(Clone, Copy)]
pub struct MaskedLayer<'a> {
    pub layer: Layer,
    pub before: &'a [u8],
    pub list: &'a [u8],
    ghost comes: { suits 7 (layer.number - 1) before.now ≡ true },
    ghost goes: { suits 7 layer.number list.now ≡ true },
}
