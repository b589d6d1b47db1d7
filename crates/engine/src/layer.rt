ghost use Rattle.std.specs.Prelude.{◌≡◌, ℕ, pred, ◌-◌, ◌*◌, ◌<◌};
ghost use Rattle.algebra.specs.declared.Direction.TheVariants.{Inverse};
ghost use Rattle.algebra.specs.Congruence.{Same};
ghost use Rattle.algebra.specs.Masks.{mask_after, InverseLayer};
ghost use Rattle.engine.specs.Rows.{Elements, IsRow, held};
ghost use Rattle.engine.specs.Steps.{WentForward, WentBack, InverseOf128};

use crate::butterfly::{forward_group, inverse_group};
use crate::masked::MaskedLayer;
use crate::masks::Masks;
use rings::Ring;

// The two directions have other groups and other butterflies, so each has its loop. The loops go by the group's index, which its factor and
// its masks need; after `chunks_exact_mut` a proof would know only the length of the words.

/// One masked forward layer.
pub fn forward_layer<R: Ring>(ring: &R, words: &mut [R::Word], masked: &MaskedLayer)
    requires { IsRow (R.element ring.now) words.old }
    ensures all { Elements (R.element ring.now) words.new }
    ensures went { WentForward (pred (R.modulus ring.now)) (R.root ring.now) masked.now.layer.number masked.now.before.now masked.now.list.now (held (R.meaning ring.now) words.old) (held (R.meaning ring.now) words.new) }
{
    let came = Masks::new(masked.before);
    let goes = Masks::new(masked.list);
    for index in 0..masked.layer.forward_count() {
        forward_group(
            ring,
            words,
            masked.layer.forward_group_at(index),
            &came,
            &goes,
        );
    }
}

// The butterflies of an inverse layer, before the factor of the last one.
fn inverse_butterflies<R: Ring>(ring: &R, words: &mut [R::Word], masked: &MaskedLayer)
    requires { IsRow (R.element ring.now) words.old }
    ensures all { Elements (R.element ring.now) words.new }
    ensures went { InverseLayer 7 (pred (R.modulus ring.now)) (R.root ring.now) 1 masked.now.layer.number (mask_after 7 Inverse (masked.now.layer.number - 1) masked.now.before.now) (mask_after 7 Inverse masked.now.layer.number masked.now.list.now) (held (R.meaning ring.now) words.old) (held (R.meaning ring.now) words.new) }
{
    let came = Masks::new(masked.before);
    let goes = Masks::new(masked.list);
    for index in 0..masked.layer.inverse_count() {
        inverse_group(
            ring,
            words,
            masked.layer.inverse_group_at(index),
            &came,
            &goes,
        );
    }
}

/// Divides every word by 128.
pub(crate) fn scale<R: Ring>(ring: &R, words: &mut [R::Word])
    requires { IsRow (R.element ring.now) words.old }
    ensures all { Elements (R.element ring.now) words.new }
    ensures scaled { (i : ℕ) → InverseOf128 (pred (R.modulus ring.now)) i → (j : ℕ) → j < 256 → Same (pred (R.modulus ring.now)) (held (R.meaning ring.now) words.new j) (i * held (R.meaning ring.now) words.old j) }
{
    let inverse = ring.inverse();
    for word in words.iter_mut() {
        *word = ring.product(inverse, *word);
    }
}

/// One masked inverse layer.
pub fn inverse_layer<R: Ring>(ring: &R, words: &mut [R::Word], masked: &MaskedLayer)
    requires { IsRow (R.element ring.now) words.old }
    ensures all { Elements (R.element ring.now) words.new }
    ensures went { (i : ℕ) → InverseOf128 (pred (R.modulus ring.now)) i → WentBack (pred (R.modulus ring.now)) (R.root ring.now) i masked.now.layer.number masked.now.before.now masked.now.list.now (held (R.meaning ring.now) words.old) (held (R.meaning ring.now) words.new) }
{
    inverse_butterflies(ring, words, masked);
    if masked.layer.number == 7 {
        scale(ring, words);
    }
}
