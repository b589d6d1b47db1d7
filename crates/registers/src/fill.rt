ghost use Rattle.std.specs.Prelude.{◌≡◌, ℕ, ◌+◌, ◌*◌, ◌<◌, map, length};
ghost use Rattle.std.proofs.Math.Option.{none};
ghost use Rattle.rings.specs.Refusals.{flaw, below};
ghost use Rattle.guarded.specs.Model.{model};
ghost use Rattle.histories.specs.Calls.{part};
ghost use Rattle.histories.specs.Serves.{Meaning, Numbered};
ghost use Rattle.registers.specs.Rows.{Only, Holding, Wiped, Tested};

use guarded::GuardedRing;
use histories::Index;
use rings::Ring;

/// Writes lift(x, c, byte) into register r, word by word.
pub fn load_register<G: GuardedRing>(
    ring: &G,
    words: &mut [G::Word],
    r: Index,
    xs: &[u16],
    cs: &[u32],
    bytes: &[u8],
)
    requires room { length words.old ≡ 2048 }
    requires sizes { (length xs.now ≡ 256) × ((length cs.now ≡ 256) × (length bytes.now ≡ 256)) }
    requires range { flaw (below 3329) xs.now ≡ none }
    requires checks { flaw (below (G.check ring.now)) cs.now ≡ none }
    requires digits { flaw (below (G.redundancy ring.now)) bytes.now ≡ none }
    ensures only { Only r.number words.old words.new }
    ensures holds { Holding (model G.GuardedRing ring.now) xs.now cs.now bytes.now (part words.new r.number) }
{
    let base = 256 * r.number as usize;
    // An index counts, since a proof knows only the length of what `iter_mut` with `zip` or `enumerate` wrote.
    for k in 0..256 {
        words[base + k] = ring.lift(xs[k], cs[k], bytes[k]);
    }
}

/// Puts in place of each word of register r the element of its meaning that has the number given.
pub fn refresh_register<G: GuardedRing>(ring: &G, words: &mut [G::Word], r: Index, bytes: &[u8])
    requires room { length words.old ≡ 2048 }
    requires size { length bytes.now ≡ 256 }
    requires digits { flaw (below (G.redundancy ring.now)) bytes.now ≡ none }
    requires tested { Tested (G.element ring.now) words.old r.number }
    ensures only { Only r.number words.old words.new }
    ensures means { Meaning (model G.GuardedRing ring.now) (map (G.meaning ring.now) (part words.old r.number)) (part words.new r.number) }
    ensures numbers { Numbered (model G.GuardedRing ring.now) bytes.now (part words.new r.number) }
{
    let base = 256 * r.number as usize;
    // An index counts, since a proof knows only the length of what `iter_mut` with `zip` wrote.
    for k in 0..256 {
        let (s, c) = ring.split(words[base + k]);
        words[base + k] = ring.lift(s, c, bytes[k]);
    }
}

/// Writes lift(0, 0, 0) into every word.
pub fn wipe<G: GuardedRing>(ring: &G, words: &mut [G::Word])
    ensures { Wiped (model G.GuardedRing ring.now) words.new }
{
    let zero = ring.lift(0, 0, 0);
    // `fill` asks that a clone cannot fail, and a word is known to be `Copy` alone.
    for word in words.iter_mut() {
        *word = zero;
    }
}
