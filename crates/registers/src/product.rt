ghost use Rattle.std.specs.Prelude.{◌≡◌, ℕ, ◌+◌, ◌*◌, ◌<◌, map, length};
ghost use Rattle.guarded.specs.Model.{model};
ghost use Rattle.histories.specs.Calls.{part, meanings, times};
ghost use Rattle.histories.specs.Serves.{Meaning, combined};
ghost use Rattle.registers.specs.Rows.{Only, Tested};

use engine::index::reversed;
use engine::product::slot_product;
use guarded::GuardedRing;
use histories::Join;
use rings::Ring;

/// Writes the products of the slots of a and b into d. A slot is read before it is written, so d may be a or b.
pub(crate) fn multiply_registers<G: GuardedRing>(ring: &G, words: &mut [G::Word], join: Join)
    requires size { length words.old ≡ 2048 }
    requires left { Tested (G.element ring.now) words.old join.a.number }
    requires right { Tested (G.element ring.now) words.old join.b.number }
    ensures only { Only join.d.number words.old words.new }
    ensures means { Meaning (model G.GuardedRing ring.now) (combined (meanings (model G.GuardedRing ring.now)) times (map (G.meaning ring.now) (part words.old join.a.number)) (map (G.meaning ring.now) (part words.old join.b.number))) (part words.new join.d.number) }
{
    let to = 256 * join.d.number as usize;
    let left = 256 * join.a.number as usize;
    let right = 256 * join.b.number as usize;
    // An index counts, since the three registers lie in one slice, and d may be a or b.
    for slot in 0..128 {
        let i = 2 * slot;
        let c = ring.power(2 * reversed(slot as u8) + 1);
        let (low, high) = slot_product(
            ring,
            words[left + i],
            words[left + (i + 1)],
            words[right + i],
            words[right + (i + 1)],
            c,
        );
        words[to + i] = low;
        words[to + (i + 1)] = high;
    }
}
