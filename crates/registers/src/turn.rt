ghost use Rattle.std.specs.Prelude.{◌≡◌, ℕ, ◌+◌, ◌-◌, ◌*◌, ◌<◌, ◌≤◌, true, map, length};
ghost use Rattle.guarded.specs.Model.{model};
ghost use Rattle.histories.specs.Operations.{layer_under};
ghost use Rattle.histories.specs.Calls.{part, meanings};
ghost use Rattle.histories.specs.Serves.{Meaning};
ghost use Rattle.registers.specs.Rows.{Only, Tested};

use algebra::Direction;
use engine::MaskedLayer;
use engine::layer::{forward_layer, inverse_layer};
use guarded::GuardedRing;
use histories::Index;
use rings::Ring;

/// One masked layer of register r.
pub fn turn_register<G: GuardedRing>(
    ring: &G,
    words: &mut [G::Word],
    r: Index,
    way: Direction,
    masked: &MaskedLayer,
)
    requires size { length words.old ≡ 2048 }
    requires tested { Tested (G.element ring.now) words.old r.number }
    ensures only { Only r.number words.old words.new }
    ensures means { Meaning (model G.GuardedRing ring.now) (layer_under (meanings (model G.GuardedRing ring.now)) way masked.now.layer.number masked.now.before.now masked.now.list.now (map (G.meaning ring.now) (part words.old r.number))) (part words.new r.number) }
{
    let base = 256 * r.number as usize;
    let row = &mut words[base..base + 256];
    // The two directions have laws of their own, so the choice stands where a law is asked for.
    match way {
        Direction::Forward => forward_layer(ring, row, masked),
        Direction::Inverse => inverse_layer(ring, row, masked),
    }
}
