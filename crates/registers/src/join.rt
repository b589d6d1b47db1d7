ghost use Rattle.std.specs.Prelude.{◌≡◌, ℕ, ◌+◌, ◌*◌, ◌<◌, map, length, slice_index_or};
ghost use Rattle.guarded.specs.Model.{model};
ghost use Rattle.histories.specs.Calls.{part, meanings};
ghost use Rattle.histories.specs.Serves.{Meaning, combined};
ghost use Rattle.registers.specs.Rows.{Only, Combined, Tested};
ghost use Rattle.histories.specs.Kinds.{operation_of};

use crate::product::multiply_registers;
use guarded::GuardedRing;
use histories::{Join, Operation};
use rings::Ring;

// Writes into d what `combine` makes of the words of a and b, place by place.
fn combine_registers<W: Copy, F: Fn(W, W) -> W>(words: &mut [W], join: Join, combine: F)
    requires size { length words.old ≡ 2048 }
    requires callable { (k : ℕ) (e : W) → k < 256 → F.pre combine (slice_index_or words.old (256 * join.a.number + k) e) (slice_index_or words.old (256 * join.b.number + k) e) }
    ensures { Combined (F.post combine) join.d.number join.a.number join.b.number words.old words.new }
{
    let to = 256 * join.d.number as usize;
    let left = 256 * join.a.number as usize;
    let right = 256 * join.b.number as usize;
    // An index counts, since the three registers lie in one slice, and d may be a or b.
    for k in 0..256 {
        words[to + k] = combine(words[left + k], words[right + k]);
    }
}

/// Writes the sum, the difference or the slot product of the registers a and b into d, which may be one of them.
pub fn join_registers<G: GuardedRing>(ring: &G, words: &mut [G::Word], join: Join)
    requires size { length words.old ≡ 2048 }
    requires left { Tested (G.element ring.now) words.old join.a.number }
    requires right { Tested (G.element ring.now) words.old join.b.number }
    ensures only { Only join.d.number words.old words.new }
    ensures means { Meaning (model G.GuardedRing ring.now) (combined (meanings (model G.GuardedRing ring.now)) (operation_of join.operation) (map (G.meaning ring.now) (part words.old join.a.number)) (map (G.meaning ring.now) (part words.old join.b.number))) (part words.new join.d.number) }
{
    match join.operation {
        Operation::Plus => combine_registers(words, join, |x, y| ring.sum(x, y)),
        Operation::Minus => combine_registers(words, join, |x, y| ring.difference(x, y)),
        Operation::Times => multiply_registers(ring, words, join),
    }
}
