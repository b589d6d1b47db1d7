ghost use Rattle.std.specs.Prelude.{◌≡◌, ℕ, ◌+◌, ◌*◌, ◌<◌, ◌≤◌, length, IfOk};
ghost use Rattle.histories.specs.Calls.{opened};
ghost use Rattle.records.specs.Tables.{state};
ghost use Rattle.decrypt_blinded.specs.Decryption.{Decrypted};

use crate::blinded::decrypt;
use crate::rows::BlindedRows;
use guarded::GuardedRing;
use histories::Form;
use rings::{Refusal, Ring};
use workspace::Workspace;

/// What came of it: the numbers released, and the answer of a second release, after a strike.
#[derive(Drop)]
pub struct Trial {
    pub numbers: [u16; 256],
    pub struck: Result<Form, Refusal>,
}

/// Decrypts in a workspace just opened; then puts the word before it in place of the last word of the result, as a disturbance might,
/// and releases again.
pub fn decrypt_and_strike<G: GuardedRing>(
    space: &mut Workspace<G>,
    words: &mut [G::Word],
    blinded: &BlindedRows,
) -> Result<Trial, Refusal>
    requires opened { state space.old.table ≡ opened }
    requires size { length words.old ≡ 2048 }
    ensures { IfOk result (λ t. Decrypted blinded.now.rows.rank.number blinded.now.rows.u.now blinded.now.rows.s.now blinded.now.rows.v.now t.numbers) }
{
    let mut numbers = [0u16; 256];
    decrypt(space, words, blinded, &mut numbers)?;
    words[255] = words[254];
    let mut out = [0u16; 256];
    let mut scratch = [0u32; 256];
    let struck = space.release(words, 0, &mut out, &mut scratch);
    Ok(Trial { numbers, struck })
}
