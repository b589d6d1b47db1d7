ghost use Rattle.std.specs.Prelude.{◌≡◌, length};
ghost use Rattle.algebra.specs.declared.Direction.TheVariants.{Forward, Inverse};
ghost use Rattle.guarded.specs.Model.{model};
ghost use Rattle.histories.specs.Calls.{part, opened as all_empty, load as loading, turn as turning, join as joining, refresh as refreshing, clear as clearing, polynomial, transform, plus, minus, times};
ghost use Rattle.histories.specs.Serves.{Serves};
ghost use Rattle.histories.specs.Answers.{told};
ghost use Rattle.records.specs.Tables.{state};
ghost use Rattle.histories.specs.Kinds.{kind_of, operation_of};

use super::Workspace;
use algebra::Direction;
use engine::MaskedLayer;
use guarded::GuardedRing;
use histories::{Kind, Operation};
use records::{Table, check_clear, loaded};
use registers::{join_registers, load_register, refresh_register, turn_register};
use rings::{Refusal, Ring};
use witness::residues_due;

// The interface has a call for each kind of load, direction and operation; each is a name for one of the private functions below it.
// Each call says that its ring stays: Rust has no field that a `&mut self` cannot change.
impl<G: GuardedRing> Workspace<G> {
    /// Opens a workspace on a ring and takes the ring over. All registers are empty.
    pub fn open(ring: G) -> Workspace<G>
        ensures ring { result.ring ≡ ring }
        ensures empty { state result.table ≡ all_empty }
    {
        Workspace {
            ring,
            table: Table::new(),
        }
    }

    /// Puts a polynomial into register r, with the witness c and the numbers of its words.
    pub fn load(
        &mut self,
        words: &mut [G::Word],
        r: u8,
        coefficients: &[u16],
        c: u32,
        bytes: &[u8],
    ) -> Result<(), Refusal>
        ensures keeps { self.new.ring ≡ self.old.ring }
        ensures serves { Serves (model G.GuardedRing self.old.ring) (state self.old.table) (length words.old) (part words.old) (loading polynomial r coefficients.now c bytes.now) (told result) (state self.new.table) (part words.new) }
    {
        self.load_kind(Kind::Polynomial, words, r, coefficients, c, bytes)
    }

    /// Puts a transform into register r, with the witness c and the numbers of its words.
    pub fn load_hat(
        &mut self,
        words: &mut [G::Word],
        r: u8,
        values: &[u16],
        c: u32,
        bytes: &[u8],
    ) -> Result<(), Refusal>
        ensures keeps { self.new.ring ≡ self.old.ring }
        ensures serves { Serves (model G.GuardedRing self.old.ring) (state self.old.table) (length words.old) (part words.old) (loading transform r values.now c bytes.now) (told result) (state self.new.table) (part words.new) }
    {
        self.load_kind(Kind::Transform, words, r, values, c, bytes)
    }

    fn load_kind(
        &mut self,
        kind: Kind,
        words: &mut [G::Word],
        r: u8,
        xs: &[u16],
        c: u32,
        bytes: &[u8],
    ) -> Result<(), Refusal>
        ensures keeps { self.new.ring ≡ self.old.ring }
        ensures serves { Serves (model G.GuardedRing self.old.ring) (state self.old.table) (length words.old) (part words.old) (loading (kind_of kind) r xs.now c bytes.now) (told result) (state self.new.table) (part words.new) }
    {
        let register = self.may_load(words, r, xs, c, bytes)?;
        let mut checks = [0u32; 256];
        residues_due(&self.ring, loaded(kind, c), &mut checks);
        load_register(&self.ring, words, register, xs, &checks, bytes);
        self.table.load(register, kind, c);
        Ok(())
    }

    /// Runs the next layer of the transform of register r under these masks.
    pub fn forward(&mut self, words: &mut [G::Word], r: u8, masks: &[u8]) -> Result<(), Refusal>
        ensures keeps { self.new.ring ≡ self.old.ring }
        ensures serves { Serves (model G.GuardedRing self.old.ring) (state self.old.table) (length words.old) (part words.old) (turning Forward r masks.now) (told result) (state self.new.table) (part words.new) }
    {
        self.turn(Direction::Forward, words, r, masks)
    }

    /// Runs the next layer of the inverse transform of register r under these masks.
    pub fn inverse(&mut self, words: &mut [G::Word], r: u8, masks: &[u8]) -> Result<(), Refusal>
        ensures keeps { self.new.ring ≡ self.old.ring }
        ensures serves { Serves (model G.GuardedRing self.old.ring) (state self.old.table) (length words.old) (part words.old) (turning Inverse r masks.now) (told result) (state self.new.table) (part words.new) }
    {
        self.turn(Direction::Inverse, words, r, masks)
    }

    fn turn(
        &mut self,
        way: Direction,
        words: &mut [G::Word],
        r: u8,
        masks: &[u8],
    ) -> Result<(), Refusal>
        ensures keeps { self.new.ring ≡ self.old.ring }
        ensures serves { Serves (model G.GuardedRing self.old.ring) (state self.old.table) (length words.old) (part words.old) (turning way r masks.now) (told result) (state self.new.table) (part words.new) }
    {
        let turn = self.may_turn(words, way, r, masks)?;
        let masked = MaskedLayer {
            layer: turn.layer,
            before: self.table.incoming(turn.layer.number),
            list: masks,
        };
        turn_register(&self.ring, words, turn.register, way, &masked);
        self.table.advance(turn.register, turn.next, masks);
        Ok(())
    }

    /// Puts the sum of the registers a and b into d, which may be one of them.
    pub fn add(&mut self, words: &mut [G::Word], d: u8, a: u8, b: u8) -> Result<(), Refusal>
        ensures keeps { self.new.ring ≡ self.old.ring }
        ensures serves { Serves (model G.GuardedRing self.old.ring) (state self.old.table) (length words.old) (part words.old) (joining plus d a b) (told result) (state self.new.table) (part words.new) }
    {
        self.join(Operation::Plus, words, d, a, b)
    }

    /// Puts the difference of the registers a and b into d, which may be one of them.
    pub fn subtract(&mut self, words: &mut [G::Word], d: u8, a: u8, b: u8) -> Result<(), Refusal>
        ensures keeps { self.new.ring ≡ self.old.ring }
        ensures serves { Serves (model G.GuardedRing self.old.ring) (state self.old.table) (length words.old) (part words.old) (joining minus d a b) (told result) (state self.new.table) (part words.new) }
    {
        self.join(Operation::Minus, words, d, a, b)
    }

    /// Puts the product of the transforms in a and b into d, which may be one of them.
    pub fn multiply(&mut self, words: &mut [G::Word], d: u8, a: u8, b: u8) -> Result<(), Refusal>
        ensures keeps { self.new.ring ≡ self.old.ring }
        ensures serves { Serves (model G.GuardedRing self.old.ring) (state self.old.table) (length words.old) (part words.old) (joining times d a b) (told result) (state self.new.table) (part words.new) }
    {
        self.join(Operation::Times, words, d, a, b)
    }

    fn join(
        &mut self,
        operation: Operation,
        words: &mut [G::Word],
        d: u8,
        a: u8,
        b: u8,
    ) -> Result<(), Refusal>
        ensures keeps { self.new.ring ≡ self.old.ring }
        ensures serves { Serves (model G.GuardedRing self.old.ring) (state self.old.table) (length words.old) (part words.old) (joining (operation_of operation) d a b) (told result) (state self.new.table) (part words.new) }
    {
        let join = self.may_join(words, operation, d, a, b)?;
        join_registers(&self.ring, words, join);
        self.table.join(self.ring.check_modulus(), join);
        Ok(())
    }

    /// Puts in place of each word of register r the element of its meaning that has the number given.
    pub fn refresh(&mut self, words: &mut [G::Word], r: u8, bytes: &[u8]) -> Result<(), Refusal>
        ensures keeps { self.new.ring ≡ self.old.ring }
        ensures serves { Serves (model G.GuardedRing self.old.ring) (state self.old.table) (length words.old) (part words.old) (refreshing r bytes.now) (told result) (state self.new.table) (part words.new) }
    {
        let register = self.may_refresh(words, r, bytes)?;
        refresh_register(&self.ring, words, register, bytes);
        Ok(())
    }

    /// Makes register r empty. Its words stay as they are.
    pub fn clear(&mut self, words: &mut [G::Word], r: u8) -> Result<(), Refusal>
        ensures keeps { self.new.ring ≡ self.old.ring }
        ensures serves { Serves (model G.GuardedRing self.old.ring) (state self.old.table) (length words.old) (part words.old) (clearing r) (told result) (state self.new.table) (part words.new) }
    {
        let register = check_clear(words.len(), r)?;
        self.table.clear(register);
        Ok(())
    }
}
