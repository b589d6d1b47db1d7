ghost use Rattle.std.specs.Prelude.{◌≡◌, length, OnErr};
ghost use Rattle.guarded.specs.Model.{model};
ghost use Rattle.histories.specs.Calls.{part, release as releasing};
ghost use Rattle.histories.specs.Serves.{Serves};
ghost use Rattle.histories.specs.Answers.{handed};
ghost use Rattle.records.specs.Tables.{state};
ghost use Rattle.workspace.specs.Scratch.{Cleaned};
ghost use Rattle.workspace.specs.Judged.{Judged};

use super::Workspace;
use crate::scratch::Scratch;
use guarded::GuardedRing;
use histories::Form;
use records::check_release;
use registers::hand_out;
use rings::{Refusal, Ring};

impl<G: GuardedRing> Workspace<G> {
    /// Compares each remainder of register r by p with the witness. If all agree, writes the remainders by 3329 into out and answers
    /// the form. A scratch of 256 numbers comes back all zero, refused or not.
    pub fn release(
        &self,
        words: &[G::Word],
        r: u8,
        out: &mut [u16],
        scratch: &mut [u32],
    ) -> Result<Form, Refusal>
        ensures serves { Serves (model G.GuardedRing self.now.ring) (state self.now.table) (length words.now) (part words.now) (releasing r (length out.old) (length scratch.old)) (handed result out.new) (state self.now.table) (part words.now) }
        ensures keeps { OnErr result (out.new ≡ out.old) }
        ensures cleaned { Cleaned scratch.old scratch.new }
        ensures judged { Judged (model G.GuardedRing self.now.ring) (state self.now.table) words.now (releasing r (length out.old) (length scratch.old)) (handed result out.new) }
    {
        let n = scratch.len();
        if n != 256 {
            check_release(&self.table, words.len(), out.len(), n, r)?;
            unreachable()
        }
        let guard = Scratch(scratch);
        let register = self.may_release(words, r, out.len(), guard.0)?;
        hand_out(&self.ring, words, register, out);
        Ok(self.table.record_of(register).form)
    }
}
