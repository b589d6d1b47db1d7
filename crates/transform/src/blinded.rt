ghost use Rattle.std.specs.Prelude.{◌≡◌, ℕ, ◌%◌, ◌<◌, length, MatchResult, slice_index, slice_index_or};
ghost use Rattle.std.proofs.Math.Option.{none};
ghost use Rattle.rings.specs.Refusals.{answer, ruling, flaw, below};
ghost use Rattle.engine.specs.Rows.{Elements, held};
ghost use Rattle.guarded.specs.Model.{model, Lifted};
ghost use Rattle.transform.specs.Checks.{guarded_checks};
ghost use Rattle.transform.specs.Results.{Transformed, WordsHold};

use crate::checks::may_transform_guarded;
use engine::whole::forward_layers;
use guarded::GuardedRing;
use rings::{Refusal, Ring};

// Lifts the coefficients of f, each with the check residue 0 and the number 0. The words are written by index: after `iter_mut().zip(f)` a
// proof knows the slice's length and not what was written.
fn lift_row<G: GuardedRing>(ring: &G, f: &[u16], words: &mut [G::Word])
    requires sizes { (length f.now ≡ 256) × (length words.old ≡ 256) }
    requires range { flaw (below 3329) f.now ≡ none }
    ensures { (k : ℕ) (d : G.Word) → k < 256 → Lifted (model G.GuardedRing ring.now) (slice_index f.now k) 0 0 (slice_index_or words.new k d) }
{
    for (i, x) in f.iter().enumerate() {
        words[i] = ring.lift(*x, 0, 0);
    }
}

// Writes the remainders by 3329 of what the words mean, by index for the same reason.
fn split_row<G: GuardedRing>(ring: &G, words: &[G::Word], out: &mut [u16])
    requires sizes { (length words.now ≡ 256) × (length out.old ≡ 256) }
    requires all { Elements (G.element ring.now) words.now }
    ensures { (k : ℕ) → k < 256 → slice_index out.new k ≡ held (G.meaning ring.now) words.now k % 3329 }
{
    for (i, word) in words.iter().enumerate() {
        out[i] = ring.split(*word).0;
    }
}

/// Writes the transform of f into out, computed in a guarded ring over the lent words. Afterwards each word is one of the elements that
/// leave out's coefficient by 3329 and 0 by the check modulus. A refusal leaves words and out as they were.
pub fn forward_guarded<G: GuardedRing>(
    ring: &G,
    f: &[u16],
    words: &mut [G::Word],
    out: &mut [u16],
) -> Result<(), Refusal>
    ensures answers { answer result ≡ ruling (guarded_checks f.now (length words.old) out.old) }
    ensures writes { MatchResult result (λ _. Transformed f.now out.new) (λ _. out.new ≡ out.old) }
    ensures words { MatchResult result (λ _. WordsHold (model G.GuardedRing ring.now) words.new out.new) (λ _. words.new ≡ words.old) }
{
    may_transform_guarded(f, words.len(), out)?;
    lift_row(ring, f, words);
    forward_layers(ring, words);
    split_row(ring, words, out);
    Ok(())
}
