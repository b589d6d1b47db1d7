ghost use Rattle.std.specs.Prelude.{◌≡◌, IfOk};
ghost use Rattle.rings.specs.Refusals.{complaint, first};
ghost use Rattle.histories.specs.Calls.{join as joining, factors as of_factors, rules, times};
ghost use Rattle.histories.specs.Kinds.{operation_of};
ghost use Rattle.records.specs.Rows.{rows};
ghost use Rattle.records.specs.Joins.{Joins, of_operands};

use crate::forms::{idle, used};
use crate::table::Table;
use histories::{Form, Index, Join, Operation};
use rings::Refusal;
use rings::checks::sized;

// The factors of a product: none is a product itself, and none has a silent witness.
fn factors(table: &Table, a: Index, b: Index) -> Result<(), Refusal>
    ensures { complaint result ≡ first (of_factors (rows table.now.records) times a.number b.number) }
{
    let x = table.record_of(a);
    let y = table.record_of(b);
    if x.level > 1 {
        return Err(Refusal::Level(a.number));
    }
    if y.level > 1 {
        return Err(Refusal::Level(b.number));
    }
    if x.a == 0 {
        return Err(Refusal::Silent(a.number));
    }
    if y.a == 0 {
        return Err(Refusal::Silent(b.number));
    }
    Ok(())
}

// The forms of the operands: a product takes transforms, a sum or a difference two of the same form.
fn operands(table: &Table, join: Join) -> Result<(), Refusal>
    ensures { complaint result ≡ first (of_operands (rows table.now.records) (operation_of join.operation) join.a.number join.b.number) }
{
    let x = table.record_of(join.a).form;
    let y = table.record_of(join.b).form;
    let suits = match join.operation {
        Operation::Plus | Operation::Minus => x.is_whole(),
        Operation::Times => x == Form::Transformed,
    };
    if !suits {
        return Err(Refusal::Form(join.a.number));
    }
    if x != y {
        return Err(Refusal::Form(join.b.number));
    }
    match join.operation {
        Operation::Plus | Operation::Minus => Ok(()),
        Operation::Times => factors(table, join.a, join.b),
    }
}

/// What a sum, a difference or a product is refused for; else its registers.
// Here the numbers are not checked yet, and refused in their order: a `Join` holds checked ones.
pub fn check_join(
    table: &Table,
    operation: Operation,
    lent: usize,
    d: u8,
    a: u8,
    b: u8,
) -> Result<Join, Refusal>
    ensures says { complaint result ≡ first (rules 0 0 (rows table.now.records) lent (joining (operation_of operation) d a b)) }
    ensures found { IfOk result (Joins operation d a b) }
{
    sized(lent, 2048, 0)?;
    let join = Join {
        operation,
        d: Index::try_from(d)?,
        a: Index::try_from(a)?,
        b: Index::try_from(b)?,
    };
    used(table, join.a)?;
    used(table, join.b)?;
    idle(table, join.d)?;
    operands(table, join)?;
    Ok(join)
}
