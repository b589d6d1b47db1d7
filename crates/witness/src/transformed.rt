ghost use Rattle.std.specs.Prelude.{◌≡◌, ◌+◌, ◌*◌, ◌%◌, length};
ghost use Rattle.guarded.specs.Model.{model};
ghost use Rattle.histories.specs.Calls.{checks};
ghost use Rattle.histories.specs.Operations.{transform_of, witness as expected};

use crate::groups::ones_transformed;
use crate::modulus::Modulus;
use engine::index::reversed;
use guarded::GuardedRing;
use histories::Register;

// The two numbers of aJ + bJ² in a slot of the root c, where J has s twice: J² has the base product (s² + s²c, 2s²).
fn slot_due<G: GuardedRing>(modulus: &Modulus<G>, register: Register, s: u32, c: u32) -> (u32, u32)
    ensures first { result.0 ≡ (register.a * s + register.b * (s * s + s * s * c)) % modulus.now.p.number }
    ensures second { result.1 ≡ (register.a * s + register.b * (s * s + s * s)) % modulus.now.p.number }
{
    let square = modulus.product(register.b, modulus.product(s, s));
    let both = modulus.sum(modulus.product(register.a, s), square);
    let turned = modulus.product(square, c);
    (modulus.sum(both, turned), modulus.sum(both, square))
}

// The transform of aJ + bJ², slot by slot from that of J. The two places of a slot are written by index: after `chunks_mut` a proof knows
// the slice's length and not what was written.
pub(crate) fn transform_due<G: GuardedRing>(
    modulus: &Modulus<G>,
    register: Register,
    numbers: &mut [u32],
)
    requires { length numbers.old ≡ 256 }
    ensures { numbers.new ≡ transform_of (checks (model G.GuardedRing modulus.now.ring.now)) (expected (checks (model G.GuardedRing modulus.now.ring.now)) register.a register.b) }
{
    let ones = ones_transformed(modulus);
    for (slot, one) in ones.iter().enumerate() {
        let c = modulus.root_power(2 * reversed(slot as u8) + 1);
        let (first, second) = slot_due(modulus, register, *one, c);
        numbers[2 * slot] = first;
        numbers[2 * slot + 1] = second;
    }
}
