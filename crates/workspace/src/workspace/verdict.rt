ghost use Rattle.std.specs.Prelude.{◌≡◌, length, IfOk};
ghost use Rattle.guarded.specs.Model.{model};
ghost use Rattle.histories.specs.Calls.{part, load, turn, join as joining, refresh, release, polynomial};
ghost use Rattle.histories.specs.Answers.{complaint};
ghost use Rattle.histories.specs.Indices.{Finds};
ghost use Rattle.records.specs.Tables.{state};
ghost use Rattle.records.specs.Turns.{Turns};
ghost use Rattle.records.specs.Joins.{Joins};
ghost use Rattle.workspace.specs.Verdicts.{judgement};
ghost use Rattle.histories.specs.Kinds.{operation_of};

use super::Workspace;
use algebra::Direction;
use guarded::GuardedRing;
use histories::{Index, Join, Operation};
use records::{Turn, check_join, check_load, check_refresh, check_release, check_turn};
use registers::{residues_agree, test_register};
use rings::{Refusal, Ring};
use witness::residues_due;

// Each function here makes all the checks of a call: those of its arguments and the records, then those of the words.
impl<G: GuardedRing> Workspace<G> {
    /// What a load is refused for; else its register.
    pub(super) fn may_load(
        &self,
        words: &[G::Word],
        r: u8,
        xs: &[u16],
        c: u32,
        bytes: &[u8],
    ) -> Result<Index, Refusal>
        ensures says { complaint result ≡ judgement (model G.GuardedRing self.now.ring) (state self.now.table) (length words.now) (part words.now) (load polynomial r xs.now c bytes.now) }
        ensures found { Finds r result }
    {
        check_load(
            &self.table,
            self.ring.check_modulus(),
            self.ring.redundancy_number(),
            words.len(),
            r,
            xs,
            c,
            bytes,
        )
    }

    /// What a layer is refused for; else its register, its number and the form that it leaves.
    pub(super) fn may_turn(
        &self,
        words: &[G::Word],
        way: Direction,
        r: u8,
        masks: &[u8],
    ) -> Result<Turn, Refusal>
        ensures says { complaint result ≡ judgement (model G.GuardedRing self.now.ring) (state self.now.table) (length words.now) (part words.now) (turn way r masks.now) }
        ensures found { IfOk result (Turns (state self.now.table) way r masks.now) }
    {
        let turn = check_turn(&self.table, words.len(), way, r, masks)?;
        test_register(&self.ring, words, turn.register)?;
        Ok(turn)
    }

    /// What a sum, difference or product is refused for; else its registers.
    pub(super) fn may_join(
        &self,
        words: &[G::Word],
        operation: Operation,
        d: u8,
        a: u8,
        b: u8,
    ) -> Result<Join, Refusal>
        ensures says { complaint result ≡ judgement (model G.GuardedRing self.now.ring) (state self.now.table) (length words.now) (part words.now) (joining (operation_of operation) d a b) }
        ensures found { IfOk result (Joins operation d a b) }
    {
        let join = check_join(&self.table, operation, words.len(), d, a, b)?;
        test_register(&self.ring, words, join.a)?;
        test_register(&self.ring, words, join.b)?;
        Ok(join)
    }

    /// What a refresh is refused for; else its register.
    pub(super) fn may_refresh(
        &self,
        words: &[G::Word],
        r: u8,
        bytes: &[u8],
    ) -> Result<Index, Refusal>
        ensures says { complaint result ≡ judgement (model G.GuardedRing self.now.ring) (state self.now.table) (length words.now) (part words.now) (refresh r bytes.now) }
        ensures found { Finds r result }
    {
        let t = self.ring.redundancy_number();
        let register = check_refresh(&self.table, t, words.len(), r, bytes)?;
        test_register(&self.ring, words, register)?;
        Ok(register)
    }

    /// What a release is refused for; else its register. The numbers that the register has to hold modulo p are written
    /// into the scratch.
    pub(super) fn may_release(
        &self,
        words: &[G::Word],
        r: u8,
        out: usize,
        scratch: &mut [u32],
    ) -> Result<Index, Refusal>
        ensures says { complaint result ≡ judgement (model G.GuardedRing self.now.ring) (state self.now.table) (length words.now) (part words.now) (release r out (length scratch.old)) }
        ensures found { Finds r result }
    {
        let register = check_release(&self.table, words.len(), out, scratch.len(), r)?;
        test_register(&self.ring, words, register)?;
        residues_due(&self.ring, self.table.record_of(register), scratch);
        residues_agree(&self.ring, words, register, scratch)?;
        Ok(register)
    }
}
