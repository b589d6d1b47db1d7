ghost use Rattle.std.specs.Prelude.{◌≡◌, ℕ, ◌+◌, ◌*◌, ◌<◌, [], ◌∷◌, length, not, position, IfSome, ◌==◌, ◌%◌};
ghost use Rattle.std.specs.List.{zip};
ghost use Rattle.std.proofs.Math.Option.{none};
ghost use Rattle.rings.specs.declared.refusal.Refusal.TheVariants.{Fault};
ghost use Rattle.rings.specs.Refusals.{first, scan, flaw};
ghost use Rattle.guarded.specs.Model.{model};
ghost use Rattle.histories.specs.Calls.{part, elements, plains, residues, differ};
ghost use Rattle.histories.specs.Answers.{complaint};
ghost use Rattle.registers.specs.Rows.{Tested};

use crate::row::row;
use guarded::GuardedRing;
use histories::Index;
use rings::{Refusal, Ring};

// The first word that is no element.
fn first_stray<G: GuardedRing>(ring: &G, row: &[G::Word]) -> Option<usize>
    ensures found { result ≡ position (λ w. not (G.element ring.now w)) row.now }
    ensures within { IfSome result (λ k. k < length row.now) }
{
    row.iter().position(|w| !ring.test(*w))
}

/// Tests that every word of register r is an element.
pub fn test_register<G: GuardedRing>(ring: &G, words: &[G::Word], r: Index) -> Result<(), Refusal>
    requires { length words.now ≡ 2048 }
    ensures { complaint result ≡ first (elements (model G.GuardedRing ring.now) (part words.now) r.number ∷ []) }
{
    match first_stray(ring, row(words, r)) {
        Some(k) => Err(Refusal::Stray(256 * r.number as u16 + k as u16)),
        None => Ok(()),
    }
}

// The first word whose remainder by p is not the number at its place.
fn first_fault<G: GuardedRing>(ring: &G, row: &[G::Word], numbers: &[u32]) -> Option<usize>
    requires { flaw (G.element ring.now) row.now ≡ none }
    ensures found { result ≡ position (λ x. not (G.meaning ring.now x.0 % G.check ring.now == x.1)) (zip row.now numbers.now) }
    ensures within { IfSome result (λ k. k < length row.now) }
{
    row.iter()
        .zip(numbers)
        .position(|(w, c)| ring.split(*w).1 != *c)
}

/// Compares the remainders of register r by p with the numbers that it has to hold, all 256 of them.
pub fn residues_agree<G: GuardedRing>(
    ring: &G,
    words: &[G::Word],
    r: Index,
    numbers: &[u32],
) -> Result<(), Refusal>
    requires size { length words.now ≡ 2048 }
    requires numbers { length numbers.now ≡ 256 }
    requires tested { Tested (G.element ring.now) words.now r.number }
    ensures { complaint result ≡ first (scan (differ (residues (model G.GuardedRing ring.now) (part words.now r.number)) numbers.now) Fault ∷ []) }
{
    match first_fault(ring, row(words, r), numbers) {
        Some(k) => Err(Refusal::Fault(k as u8)),
        None => Ok(()),
    }
}

/// Writes the remainders of register r by 3329 into out.
pub fn hand_out<G: GuardedRing>(ring: &G, words: &[G::Word], r: Index, out: &mut [u16])
    requires size { length words.now ≡ 2048 }
    requires out { length out.old ≡ 256 }
    requires tested { Tested (G.element ring.now) words.now r.number }
    ensures { out.new ≡ plains (model G.GuardedRing ring.now) (part words.now r.number) }
{
    // An index counts for `out`, since a proof knows only the length of what `iter_mut` with `zip` wrote.
    for (k, w) in row(words, r).iter().enumerate() {
        let (s, _) = ring.split(*w);
        out[k] = s;
    }
}
