ghost use Rattle.std.specs.Prelude.{◌≡◌, ℕ, ◌+◌, ◌-◌, ◌*◌, ◌<◌, ◌≤◌, length, OnOk};
ghost use Rattle.guarded.specs.Model.{model};
ghost use Rattle.histories.specs.Calls.{part as held, turn};
ghost use Rattle.histories.specs.Serves.{Serves};
ghost use Rattle.histories.specs.Answers.{told};
ghost use Rattle.histories.specs.Ledger.{Held};
ghost use Rattle.histories.specs.Tracked.{Tracked};
ghost use Rattle.records.specs.Tables.{state};
ghost use Rattle.decrypt_blinded.specs.Steps.{Turned, Paired, Summed};
ghost use Rattle.decrypt_blinded.specs.Decryption.{Decrypted};

use crate::rows::BlindedRows;
use algebra::Direction;
use decryption::Rows;
use guarded::GuardedRing;
use rings::{Refusal, Ring};
use workspace::Workspace;

// The witness in two bytes.
fn witness(high: u8, low: u8) -> u32 {
    u16::from_be_bytes([high, low]).into()
}

// Each function says that the ring stays, as each call of the workspace does.

// One layer of register r in this direction. The public calls of a workspace, as those in C, are one for each direction: here one of
// them is chosen.
fn turn_one<G: GuardedRing>(
    space: &mut Workspace<G>,
    words: &mut [G::Word],
    way: Direction,
    r: u8,
    masks: &[u8],
) -> Result<(), Refusal>
    ensures keeps { space.new.ring ≡ space.old.ring }
    ensures serves { Serves (model G.GuardedRing space.old.ring) (state space.old.table) (length words.old) (held words.old) (turn way r masks.now) (told result) (state space.new.table) (held words.new) }
{
    match way {
        Direction::Forward => space.forward(words, r, masks),
        Direction::Inverse => space.inverse(words, r, masks),
    }
}

// All seven layers of register r in one direction: 16 masks for each layer but the last, which takes none.
fn turn_all<G: GuardedRing>(
    space: &mut Workspace<G>,
    words: &mut [G::Word],
    way: Direction,
    r: u8,
    masks: &[u8],
) -> Result<(), Refusal>
    requires { (length words.old ≡ 2048) × (length masks.now ≡ 96) }
    ensures keeps { space.new.ring ≡ space.old.ring }
    ensures turned { OnOk result (Turned (model G.GuardedRing space.old.ring) (state space.old.table) words.old (state space.new.table) words.new way r) }
{
    for list in masks.chunks_exact(16) {
        turn_one(space, words, way, r, list)?;
    }
    turn_one(space, words, way, r, &[])
}

// Puts the transform of u into register 0 and the transform with the values s into register 1, blinded by 612 random bytes.
fn load_pair<G: GuardedRing>(
    space: &mut Workspace<G>,
    words: &mut [G::Word],
    u: &[u16],
    s: &[u16],
    random: &[u8],
) -> Result<(), Refusal>
    requires { (length words.old ≡ 2048) × (length random.now ≡ 612) }
    ensures keeps { space.new.ring ≡ space.old.ring }
    ensures paired { OnOk result (Paired (model G.GuardedRing space.old.ring) (state space.old.table) words.old (state space.new.table) words.new u.now s.now) }
{
    space.load(words, 0, u, witness(random[0], random[1]), &random[2..258])?;
    turn_all(space, words, Direction::Forward, 0, &random[258..354])?;
    space.load_hat(
        words,
        1,
        s,
        witness(random[354], random[355]),
        &random[356..612],
    )?;
    Ok(())
}

// Puts the transform of the sum of u[i] * s[i] into register 2.
fn sum_products<G: GuardedRing>(
    space: &mut Workspace<G>,
    words: &mut [G::Word],
    blinded: &BlindedRows,
) -> Result<(), Refusal>
    requires { length words.old ≡ 2048 }
    ensures keeps { space.new.ring ≡ space.old.ring }
    ensures summed { OnOk result (Summed (model G.GuardedRing space.old.ring) (state space.old.table) words.old (state space.new.table) words.new blinded.now.rows.u.now blinded.now.rows.s.now (blinded.now.rows.rank.number - 1)) }
{
    let Rows { u, s, .. } = blinded.rows;
    let (u_0, more_u) = u.split_at(256);
    let (s_0, more_s) = s.split_at(256);
    let (first, more) = blinded.random.split_at(612);
    load_pair(space, words, u_0, s_0, first)?;
    space.multiply(words, 2, 0, 1)?;
    let factors = more_u.chunks_exact(256).zip(more_s.chunks_exact(256));
    for ((u_i, s_i), bytes) in factors.zip(more.chunks_exact(612)) {
        load_pair(space, words, u_i, s_i, bytes)?;
        space.multiply(words, 0, 0, 1)?;
        space.add(words, 2, 2, 0)?;
    }
    Ok(())
}

/// Writes v minus the sum of u[i] * s[i] into out: u and s are rows of as many polynomials and transforms as the rank says.
///
/// The random bytes serve in the order of use: for each i the witness of u in two bytes, the numbers of its words, 16 masks for each
/// of six layers, the witness of s and its numbers; then 96 masks of the inverse, and the witness and the numbers of v.
/// The result stays in register 0.
pub fn decrypt<G: GuardedRing>(
    space: &mut Workspace<G>,
    words: &mut [G::Word],
    blinded: &BlindedRows,
    out: &mut [u16; 256],
) -> Result<(), Refusal>
    requires { length words.old ≡ 2048 }
    ensures keeps { space.new.ring ≡ space.old.ring }
    ensures right { OnOk result ((L : ℕ → Held) → Tracked (model G.GuardedRing space.old.ring) (state space.old.table) words.old L → Decrypted blinded.now.rows.rank.number blinded.now.rows.u.now blinded.now.rows.s.now blinded.now.rows.v.now out.new) }
{
    let Rows { rank, v, .. } = blinded.rows;
    let (_, random) = blinded.random.split_at(612 * rank.number as usize);
    sum_products(space, words, blinded)?;
    turn_all(space, words, Direction::Inverse, 2, &random[..96])?;
    space.load(words, 0, v, witness(random[96], random[97]), &random[98..])?;
    space.subtract(words, 0, 0, 2)?;
    let mut scratch = [0u32; 256];
    space.release(words, 0, out, &mut scratch)?;
    Ok(())
}
