ghost use Rattle.std.specs.Prelude.{◌≡◌, ◌+◌, ◌-◌, ◌*◌, ◌%◌, ◌<◌, ◌≤◌, true, length, position};
ghost use Rattle.algebra.specs.Masks.{is_list_length};
ghost use Rattle.histories.specs.Forms.{in_work, whole};
ghost use Rattle.histories.specs.Calls.{empty_record, opened};
ghost use Rattle.histories.specs.Serves.{loaded as as_loaded, joined};
ghost use Rattle.records.specs.Rows.{rows, proper as is_proper, Alone};
ghost use Rattle.records.specs.Tables.{state, with_register, advanced, carried};
ghost use Rattle.histories.specs.Kinds.{kind_of, operation_of};

use super::Table;
use crate::modulus::Modulus;
use arrayvec::ArrayVec;
use histories::{Form, Index, Join, Kind, Operation, Register};

// A constant and no `Default`: the array of a new table takes it eight times.
const EMPTY: Register = Register {
    form: Form::Empty,
    level: 0,
    a: 0,
    b: 0,
};

/// The record of what is loaded, with the number c of its witness.
pub fn loaded(kind: Kind, c: u32) -> Register
    ensures { result ≡ as_loaded (kind_of kind) c }
{
    Register {
        form: Form::from(kind),
        level: 1,
        a: c,
        b: 0,
    }
}

// The record of a result. The numbers of the witness are added, subtracted or multiplied modulo p.
fn result(modulus: Modulus, operation: Operation, x: Register, y: Register) -> Register
    ensures { result ≡ joined modulus.p (operation_of operation) x y }
{
    let level = x.level.max(y.level);
    match operation {
        Operation::Plus => Register {
            form: x.form,
            level,
            a: modulus.sum(x.a, y.a),
            b: modulus.sum(x.b, y.b),
        },
        Operation::Minus => Register {
            form: x.form,
            level,
            a: modulus.difference(x.a, y.a),
            b: modulus.difference(x.b, y.b),
        },
        Operation::Times => Register {
            form: x.form,
            level: 2,
            a: 0,
            b: modulus.product(x.a, y.a),
        },
    }
}

impl Table {
    /// Eight empty registers, and no masks.
    pub fn new() -> Table
        ensures { state result ≡ opened }
    {
        Table {
            records: [EMPTY; 8],
            masks: ArrayVec::new(),
        }
    }

    /// Notes what was loaded into a register, with the number c of its witness.
    pub fn load(&mut self, register: Index, kind: Kind, c: u32)
        ensures { state self.new ≡ with_register register.number (as_loaded (kind_of kind) c) (state self.old) }
    {
        self.records[register.number as usize] = loaded(kind, c);
    }

    /// Notes that register d got the sum, the difference or the product of a and b.
    pub fn join(&mut self, p: u32, join: Join)
        requires modulus { 0 < p }
        requires entire { whole (rows self.old.records join.a.number).form ≡ true }
        ensures { state self.new ≡ with_register join.d.number (joined p (operation_of join.operation) (rows self.old.records join.a.number) (rows self.old.records join.b.number)) (state self.old) }
    {
        let x = self.record_of(join.a);
        let y = self.record_of(join.b);
        self.records[join.d.number as usize] = result(Modulus { p }, join.operation, x, y);
    }

    /// Notes that a register is empty.
    pub fn clear(&mut self, register: Index)
        ensures { state self.new ≡ with_register register.number empty_record (state self.old) }
    {
        self.records[register.number as usize] = EMPTY;
    }

    /// Notes that a register has had a layer, which left this form and took this list of masks.
    pub fn advance(&mut self, register: Index, next: Form, masks: &[u8])
        requires fine { is_proper next ≡ true }
        requires alone { Alone (rows self.old.records) register.number }
        requires few { length masks.now ≤ 128 }
        requires suited { in_work next ≡ true → is_list_length (length masks.now) ≡ true }
        ensures { state self.new ≡ advanced register.number next masks.now (state self.old) }
    {
        self.records[register.number as usize].form = next;
        self.masks = ArrayVec::try_from(masks).unwrap();
    }

    /// The record of a register.
    pub fn record_of(&self, register: Index) -> Register
        ensures { result ≡ rows self.now.records register.number }
    {
        self.records[register.number as usize]
    }

    /// The first register that is in work.
    pub(crate) fn first_in_work(&self) -> Option<usize>
        ensures { result ≡ position (λ x. in_work x.form) self.now.records }
    {
        self.records.iter().position(|x| x.form.is_in_work())
    }

    /// The list of masks that the words carry before this layer: none before layer 1, else the list that the layer before took.
    pub fn incoming(&self, layer: u8) -> &[u8]
        ensures { result.now ≡ carried layer (state self.now).masks }
    {
        if layer == 1 { &[] } else { &self.masks }
    }
}
