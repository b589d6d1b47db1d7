ghost use Rattle.std.specs.Prelude.{◌≡◌, pred, ◌*◌, ◌<◌, length};
ghost use Rattle.algebra.specs.Masks.{MaskedForward, MaskedInverse};
ghost use Rattle.engine.specs.Rows.{Elements, IsRow, PairWritten, GroupWritten};
ghost use Rattle.engine.specs.Pairs.{forward_pair, inverse_pair};

use crate::group::{Group, PairMasks};
use crate::masks::Masks;
use rings::Ring;

// The ring and its words stay two parameters here and in the layers: a struct that holds a `&mut` beside a ghost field on what it points to is
// not covered by the borrow checker.

/// A masked forward butterfly: the words at i and j come under the masks of the words, and go under the own mask of the butterfly.
pub(crate) fn forward_butterfly<R: Ring>(
    ring: &R,
    words: &mut [R::Word],
    i: usize,
    j: usize,
    z: u8,
    masks: PairMasks,
)
    requires inside { (i < j) × (j < length words.old) }
    requires all { Elements (R.element ring.now) words.old }
    ensures { PairWritten (R.element ring.now) (R.meaning ring.now) i j (MaskedForward 7 (pred (R.modulus ring.now)) (R.root ring.now) z masks.low masks.high masks.own) words.old words.new }
{
    let u = ring.power(masks.own.wrapping_sub(masks.low));
    let v = ring.power(z.wrapping_add(masks.own).wrapping_sub(masks.high));
    let a = ring.product(u, words[i]);
    let b = ring.product(v, words[j]);
    words[i] = ring.sum(a, b);
    words[j] = ring.difference(a, b);
}

// Not one function with the forward butterfly: here the two products come after the sum and the difference, there before.

/// A masked inverse butterfly: the words at i and j come under the own mask of the butterfly, and go under those of the words.
pub(crate) fn inverse_butterfly<R: Ring>(
    ring: &R,
    words: &mut [R::Word],
    i: usize,
    j: usize,
    z: u8,
    masks: PairMasks,
)
    requires inside { (i < j) × (j < length words.old) }
    requires all { Elements (R.element ring.now) words.old }
    ensures { PairWritten (R.element ring.now) (R.meaning ring.now) i j (MaskedInverse 7 (pred (R.modulus ring.now)) (R.root ring.now) 1 z masks.own masks.low masks.high) words.old words.new }
{
    let a = words[i];
    let b = words[j];
    let u = ring.power(masks.low.wrapping_sub(masks.own));
    let v = ring.power(z.wrapping_add(masks.high).wrapping_sub(masks.own));
    let s = ring.sum(a, b);
    let d = ring.difference(b, a);
    words[i] = ring.product(u, s);
    words[j] = ring.product(v, d);
}

// Forward and back, a group has another butterfly, and asks the two lists for other masks: forward the layer's own list for one and the list
// before for two, back the other way round. One function for both would take the butterfly as a closure over the words, whose contract is
// longer than this loop. The loops go by offset, since a butterfly finds its masks by number and writes two places `len` apart; of two halves
// gone through by `iter_mut` and `zip`, a proof would know the lengths alone.

/// The butterflies of one group of a forward layer.
pub(crate) fn forward_group<R: Ring>(
    ring: &R,
    words: &mut [R::Word],
    group: Group,
    before: &Masks,
    list: &Masks,
)
    requires { IsRow (R.element ring.now) words.old }
    ensures { GroupWritten (R.element ring.now) (R.meaning ring.now) (group.index * (2 * group.len)) group.len group.len (forward_pair (pred (R.modulus ring.now)) (R.root ring.now) group.z group.len group.index before.now.bytes.now list.now.bytes.now) words.old words.new }
{
    let base = group.base();
    for offset in 0..group.len {
        let low = base + offset;
        let masks = group.masks(offset, list, before);
        forward_butterfly(ring, words, low, low + group.len, group.z, masks);
    }
}

/// The butterflies of one group of an inverse layer.
pub(crate) fn inverse_group<R: Ring>(
    ring: &R,
    words: &mut [R::Word],
    group: Group,
    before: &Masks,
    list: &Masks,
)
    requires { IsRow (R.element ring.now) words.old }
    ensures { GroupWritten (R.element ring.now) (R.meaning ring.now) (group.index * (2 * group.len)) group.len group.len (inverse_pair (pred (R.modulus ring.now)) (R.root ring.now) group.z group.len group.index before.now.bytes.now list.now.bytes.now) words.old words.new }
{
    let base = group.base();
    for offset in 0..group.len {
        let low = base + offset;
        let masks = group.masks(offset, before, list);
        inverse_butterfly(ring, words, low, low + group.len, group.z, masks);
    }
}
