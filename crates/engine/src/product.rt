ghost use Rattle.std.specs.Prelude.{◌≡◌, pred, true, length};
ghost use Rattle.algebra.specs.Product.{BaseProducts};
ghost use Rattle.engine.specs.Rows.{Elements, IsRow, held};
ghost use Rattle.engine.specs.Slots.{SlotProduct};

use crate::index::reversed;
use rings::Ring;

/// The product of (a0, a1) and (b0, b1) modulo X^2 - c.
pub fn slot_product<R: Ring>(
    ring: &R,
    a0: R::Word,
    a1: R::Word,
    b0: R::Word,
    b1: R::Word,
    c: R::Word,
) -> (R::Word, R::Word)
    requires left { (R.element ring.now a0 ≡ true) × (R.element ring.now a1 ≡ true) }
    requires right { (R.element ring.now b0 ≡ true) × (R.element ring.now b1 ≡ true) }
    requires factor { R.element ring.now c ≡ true }
    ensures first { R.element ring.now result.0 ≡ true }
    ensures second { R.element ring.now result.1 ≡ true }
    ensures product { SlotProduct (pred (R.modulus ring.now)) (R.meaning ring.now c) (R.meaning ring.now a0) (R.meaning ring.now a1) (R.meaning ring.now b0) (R.meaning ring.now b1) (R.meaning ring.now result.0) (R.meaning ring.now result.1) }
{
    let first = ring.product(a0, b0);
    let round = ring.product(ring.product(a1, b1), c);
    let outer = ring.product(a0, b1);
    let inner = ring.product(a1, b0);
    (ring.sum(first, round), ring.sum(outer, inner))
}

/// The products of the 128 slots of two transforms.
pub fn base_products<R: Ring>(ring: &R, left: &[R::Word], right: &[R::Word], out: &mut [R::Word])
    requires left { IsRow (R.element ring.now) left.now }
    requires right { IsRow (R.element ring.now) right.now }
    requires out { length out.old ≡ 256 }
    ensures all { Elements (R.element ring.now) out.new }
    ensures products { BaseProducts 7 (pred (R.modulus ring.now)) (R.root ring.now) (held (R.meaning ring.now) left.now) (held (R.meaning ring.now) right.now) (held (R.meaning ring.now) out.new) }
{
    // By number: of `out` gone through by `chunks_exact_mut` a proof would know only the length.
    for slot in 0..128 {
        let i = 2 * slot;
        let c = ring.power(2 * reversed(slot as u8) + 1);
        let (low, high) = slot_product(ring, left[i], left[i + 1], right[i], right[i + 1], c);
        out[i] = low;
        out[i + 1] = high;
    }
}
