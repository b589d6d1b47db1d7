ghost use Rattle.std.specs.Prelude.{◌≡◌, length};
ghost use Rattle.guarded.specs.Model.{model};
ghost use Rattle.histories.specs.Calls.{checks};
ghost use Rattle.histories.specs.Operations.{witness as expected};

use crate::modulus::Modulus;
use guarded::GuardedRing;
use histories::Register;

// The coefficients of aJ + bJ²: the first is a - 254b, and each grows by 2b to the next.
pub(crate) fn coefficients_due<G: GuardedRing>(
    modulus: &Modulus<G>,
    register: Register,
    numbers: &mut [u32],
)
    requires { length numbers.old ≡ 256 }
    ensures { numbers.new ≡ expected (checks (model G.GuardedRing modulus.now.ring.now)) register.a register.b }
{
    let a = register.a as u64;
    let b = register.b as u64;
    let step = modulus.p.remainder(2 * b);
    let mut x = modulus.p.remainder(a + b * (modulus.p.number - 254) as u64);
    for number in numbers.iter_mut() {
        *number = x;
        x = modulus.sum(x, step);
    }
}
