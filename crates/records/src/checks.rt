ghost use Rattle.std.specs.Prelude.{◌≡◌, ◌&&◌, [], ◌∷◌, IfOk, nat_lt};
ghost use Rattle.algebra.specs.Masks.{suits};
ghost use Rattle.rings.specs.declared.refusal.Refusal.TheVariants as refuse;
ghost use Rattle.rings.specs.Refusals.{complaint, first, test, scan, flaw};
ghost use Rattle.histories.specs.Indices.{Finds};
ghost use Rattle.histories.specs.Calls.{load, turn, refresh, clear, release, eight, free, opened, rules, polynomial};
ghost use Rattle.records.specs.Rows.{rows};
ghost use Rattle.records.specs.Tables.{state};
ghost use Rattle.records.specs.Turns.{Turns};

use crate::forms::{form_after, idle, next_layer, used};
use crate::table::Table;
use crate::turn::Turn;
use algebra::Direction;
use engine::Layer;
use engine::masks::suit;
use histories::Index;
use rings::Refusal;
use rings::checks::{digits, in_range, sized};

// Each check stands in the order of the refusals' numbers, as `Calls.rules` lists them. What two checks begin with is not split off:
// a helper for two lines would hide a part of that order.

// A witness that has to be from 1 to p - 1.
fn witness(c: u32, p: u32) -> Result<(), Refusal>
    ensures { complaint result ≡ first (test (nat_lt 0 c && nat_lt c p) refuse.Witness ∷ []) }
{
    if c == 0 || c >= p {
        return Err(Refusal::Witness);
    }
    Ok(())
}

// The arguments are those of the workspace's call, in its order: a struct of them would be built by the one caller and taken apart
// here, which is no plainer.

/// What a load is refused for; else its register.
pub fn check_load(
    table: &Table,
    p: u32,
    t: u8,
    lent: usize,
    r: u8,
    xs: &[u16],
    c: u32,
    bytes: &[u8],
) -> Result<Index, Refusal>
    ensures says { complaint result ≡ first (rules p t (rows table.now.records) lent (load polynomial r xs.now c bytes.now)) }
    ensures found { Finds r result }
{
    sized(lent, 2048, 0)?;
    sized(xs.len(), 256, 1)?;
    sized(bytes.len(), 256, 2)?;
    let register = Index::try_from(r)?;
    in_range(xs)?;
    witness(c, p)?;
    digits(t, bytes)?;
    idle(table, register)?;
    Ok(register)
}

// While a layer would start a transform of a register, no other may be in work.
fn unhindered(table: &Table, register: Index) -> Result<(), Refusal>
    ensures { complaint result ≡ first (scan (flaw (free (rows table.now.records) register.number) eight) refuse.Busy ∷ []) }
{
    if table.record_of(register).form.is_in_work() {
        return Ok(());
    }
    match table.first_in_work() {
        Some(k) => Err(Refusal::Busy(k as u8)),
        None => Ok(()),
    }
}

// A mask list that has to suit the layer of a register.
fn suited(layer: Layer, masks: &[u8], register: Index) -> Result<(), Refusal>
    ensures { complaint result ≡ first (test (suits 7 layer.number masks.now) (refuse.Masks register.number) ∷ []) }
{
    if suit(layer.number, masks) {
        Ok(())
    } else {
        Err(Refusal::Masks(register.number))
    }
}

/// What a layer is refused for; else its register, its number, and the form that it leaves.
pub fn check_turn(
    table: &Table,
    lent: usize,
    way: Direction,
    r: u8,
    masks: &[u8],
) -> Result<Turn, Refusal>
    ensures says { complaint result ≡ first (rules 0 0 (rows table.now.records) lent (turn way r masks.now)) }
    ensures found { IfOk result (Turns (state table.now) way r masks.now) }
{
    sized(lent, 2048, 0)?;
    let register = Index::try_from(r)?;
    let layer = next_layer(table, way, register)?;
    unhindered(table, register)?;
    suited(layer, masks, register)?;
    let next = form_after(way, layer);
    Ok(Turn {
        register,
        layer,
        next,
    })
}

/// What a refresh is refused for; else its register.
pub fn check_refresh(
    table: &Table,
    t: u8,
    lent: usize,
    r: u8,
    bytes: &[u8],
) -> Result<Index, Refusal>
    ensures says { complaint result ≡ first (rules 0 t (rows table.now.records) lent (refresh r bytes.now)) }
    ensures found { Finds r result }
{
    sized(lent, 2048, 0)?;
    sized(bytes.len(), 256, 1)?;
    let register = Index::try_from(r)?;
    digits(t, bytes)?;
    used(table, register)?;
    Ok(register)
}

/// What a clear is refused for, whatever the records are; else its register.
pub fn check_clear(lent: usize, r: u8) -> Result<Index, Refusal>
    ensures says { complaint result ≡ first (rules 0 0 opened.registers lent (clear r)) }
    ensures found { Finds r result }
{
    sized(lent, 2048, 0)?;
    Index::try_from(r)
}

/// What a release into so many numbers, with so much scratch, is refused for; else its register.
pub fn check_release(
    table: &Table,
    lent: usize,
    out: usize,
    scratch: usize,
    r: u8,
) -> Result<Index, Refusal>
    ensures says { complaint result ≡ first (rules 0 0 (rows table.now.records) lent (release r out scratch)) }
    ensures found { Finds r result }
{
    sized(lent, 2048, 0)?;
    sized(out, 256, 1)?;
    sized(scratch, 256, 2)?;
    let register = Index::try_from(r)?;
    used(table, register)?;
    if table.record_of(register).form.is_whole() {
        Ok(register)
    } else {
        Err(Refusal::Form(r))
    }
}
