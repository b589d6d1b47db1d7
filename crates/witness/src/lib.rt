#![tactic(auto)]

ghost use Rattle.std.specs.Prelude.{◌≡◌, length};
ghost use Rattle.guarded.specs.Model.{model};
ghost use Rattle.histories.specs.Calls.{due};

use crate::modulus::Modulus;
use crate::natural::coefficients_due;
use crate::transformed::transform_due;
use guarded::GuardedRing;
use histories::{Form, Register};

mod groups;
mod modulus;
mod natural;
mod transformed;

/// Writes what a register of this record has to hold modulo p: the coefficients of aJ + bJ², or their transform.
// The length stays a `requires`: a release lends a slice, and of its conversion to an array no contract says what the slice holds afterwards.
pub fn residues_due<G: GuardedRing>(ring: &G, register: Register, numbers: &mut [u32])
    requires { length numbers.old ≡ 256 }
    ensures { numbers.new ≡ due (model G.GuardedRing ring.now) register }
{
    let modulus = Modulus::of(ring);
    match register.form {
        Form::Transformed => transform_due(&modulus, register, numbers),
        _ => coefficients_due(&modulus, register, numbers),
    }
}
