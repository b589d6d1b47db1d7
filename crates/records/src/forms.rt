ghost use Rattle.std.specs.Prelude.{◌≡◌, suc, true, [], ◌∷◌, IfOk};
ghost use Rattle.rings.specs.declared.refusal.Refusal.TheVariants as refuse;
ghost use Rattle.rings.specs.Refusals.{complaint, first, test};
ghost use Rattle.histories.specs.Forms.{occupied, turns, done_of, form_after as after};
ghost use Rattle.histories.specs.Calls.{used as is_used, idle as is_idle};
ghost use Rattle.records.specs.Rows.{rows, proper as is_proper};

use crate::table::Table;
use algebra::Direction;
use engine::Layer;
use histories::{Form, Index};
use rings::Refusal;

/// A register that has to hold something.
pub(crate) fn used(table: &Table, register: Index) -> Result<(), Refusal>
    ensures { complaint result ≡ first (is_used (rows table.now.records) register.number ∷ []) }
{
    if table.record_of(register).form == Form::Empty {
        Err(Refusal::Empty(register.number))
    } else {
        Ok(())
    }
}

/// A register that must not be in work.
pub(crate) fn idle(table: &Table, register: Index) -> Result<(), Refusal>
    ensures { complaint result ≡ first (is_idle (rows table.now.records) register.number ∷ []) }
{
    if table.record_of(register).form.is_in_work() {
        Err(Refusal::Form(register.number))
    } else {
        Ok(())
    }
}

/// The layer of a register that comes next in this direction.
pub(crate) fn next_layer(table: &Table, way: Direction, register: Index) -> Result<Layer, Refusal>
    ensures says { complaint result ≡ first (is_used (rows table.now.records) register.number ∷ test (turns way (rows table.now.records register.number).form) (refuse.Form register.number) ∷ []) }
    ensures found { IfOk result (λ layer. layer.number ≡ suc (done_of (rows table.now.records register.number).form)) }
{
    let done = match (table.record_of(register).form, way) {
        (Form::Empty, _) => return Err(Refusal::Empty(register.number)),
        (Form::Natural, Direction::Forward) | (Form::Transformed, Direction::Inverse) => 0,
        (Form::Rising(done), Direction::Forward) | (Form::Falling(done), Direction::Inverse) =>
            done,
        _ => return Err(Refusal::Form(register.number)),
    };
    Ok(Layer { number: done + 1 })
}

/// The form that a layer leaves.
pub(crate) fn form_after(way: Direction, layer: Layer) -> Form
    ensures { result ≡ after way layer.number }
{
    match (way, layer.number) {
        (Direction::Forward, 7) => Form::Transformed,
        (Direction::Forward, done) => Form::Rising(done),
        (Direction::Inverse, 7) => Form::Natural,
        (Direction::Inverse, done) => Form::Falling(done),
    }
}
