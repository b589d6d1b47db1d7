ghost use Rattle.std.specs.Prelude.{◌≡◌, ℕ, pred, ◌-◌};
ghost use Rattle.algebra.specs.Layers.{ntt, inv_ntt};
ghost use Rattle.engine.specs.Rows.{Elements, IsRow, held};
ghost use Rattle.engine.specs.Steps.{InverseOf128, Agrees, unmasked_list};

use crate::layer::{forward_layer, inverse_layer};
use crate::masked::{Layer, MaskedLayer};
use rings::Ring;

// The list that stands for no masks after this many layers.
fn no_masks(layers: u8) -> &'static [u8]
    ensures { result.now ≡ unmasked_list layers }
{
    if layers == 0 || layers == 7 {
        &[]
    } else {
        &[0]
    }
}

// A layer with no mask.
fn unmasked(layer: Layer) -> MaskedLayer<'static>
    ensures layer { result.layer ≡ layer }
    ensures before { result.before.now ≡ unmasked_list (layer.number - 1) }
    ensures list { result.list.now ≡ unmasked_list layer.number }
{
    MaskedLayer {
        layer,
        before: no_masks(layer.number - 1),
        list: no_masks(layer.number),
    }
}

// The loops below run over the numbers of layers, which index nothing.

/// The transform: all seven layers, with no mask.
pub fn forward_layers<R: Ring>(ring: &R, words: &mut [R::Word])
    requires { IsRow (R.element ring.now) words.old }
    ensures all { Elements (R.element ring.now) words.new }
    ensures transformed { Agrees (pred (R.modulus ring.now)) (held (R.meaning ring.now) words.new) (ntt 7 (pred (R.modulus ring.now)) (R.root ring.now) (held (R.meaning ring.now) words.old)) }
{
    for number in 1..8u8 {
        forward_layer(ring, words, &unmasked(Layer { number }));
    }
}

// Not one function with `forward_layers`: it calls another layer, and promises its result for each inverse of 128.

/// The inverse transform: all seven layers back, with no mask.
pub fn inverse_layers<R: Ring>(ring: &R, words: &mut [R::Word])
    requires { IsRow (R.element ring.now) words.old }
    ensures all { Elements (R.element ring.now) words.new }
    ensures transformed { (i : ℕ) → InverseOf128 (pred (R.modulus ring.now)) i → Agrees (pred (R.modulus ring.now)) (held (R.meaning ring.now) words.new) (inv_ntt 7 (pred (R.modulus ring.now)) (R.root ring.now) i (held (R.meaning ring.now) words.old)) }
{
    for number in 1..8u8 {
        inverse_layer(ring, words, &unmasked(Layer { number }));
    }
}
