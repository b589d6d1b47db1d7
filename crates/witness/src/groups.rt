ghost use Rattle.std.specs.Prelude.{◌≡◌, ℕ, ◌<◌, ◌≤◌, length, get_or};
ghost use Rattle.witness.specs.Groups.{Halved, Groups};

use crate::modulus::Modulus;
use engine::index::reversed;
use guarded::GuardedRing;

// One layer of J, whose groups have one number each. Group g becomes the groups 2g and 2g + 1, so the last group goes first.
// The index stays: each step reads place g of the slice and writes the places 2g and 2g + 1 of the same slice.
fn halve<G: GuardedRing>(modulus: &Modulus<G>, count: usize, numbers: &mut [u32; 128])
    requires size { count ≤ 64 }
    requires small { (k : ℕ) → get_or numbers.old k 0 < modulus.now.p.number }
    ensures { Halved modulus.now.p.number (G.root modulus.now.ring.now) count 0 numbers.old numbers.new }
{
    for g in (0..count).rev() {
        let whole = numbers[g];
        let turned = modulus.product(whole, modulus.root_power(reversed((count + g) as u8)));
        numbers[2 * g] = modulus.sum(whole, turned);
        numbers[2 * g + 1] = modulus.difference(whole, turned);
    }
}

// The transform of J: number i stands at both places of slot i.
pub(crate) fn ones_transformed<G: GuardedRing>(modulus: &Modulus<G>) -> [u32; 128]
    ensures { Groups modulus.now.p.number (G.root modulus.now.ring.now) 7 result }
{
    let mut numbers = [0; 128];
    numbers[0] = 1;
    // The number of the layer is the argument of the shift, and no index into a slice.
    for layer in 0..7u8 {
        halve(modulus, 1 << layer, &mut numbers);
    }
    numbers
}
