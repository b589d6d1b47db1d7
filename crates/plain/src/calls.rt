ghost use Rattle.std.specs.Prelude.{◌≡◌, OnErr};

use crate::unserved::{Unserved, Way};
use guarded::{Pair, Redundant, Residues};
use input::numbers;
use std::alloc::Global;
use transform::{forward, forward_guarded, inverse, layer, multiply};

// The transform in the redundant ring of p and t.
fn serve_redundant(
    heap: Global,
    p: &str,
    t: &str,
    f: &str,
    out: &mut [u16; 256],
) -> Result<(), Unserved>
    ensures { OnErr result (out.new ≡ out.old) }
{
    let f = numbers::<u16>(heap, f)?;
    let ring = Redundant::approve(p.parse()?, t.parse()?)?;
    forward_guarded(&ring, &f, &mut [0; 256], out)?;
    Ok(())
}

// The transform in the pair ring of p.
fn serve_pair(heap: Global, p: &str, f: &str, out: &mut [u16; 256]) -> Result<(), Unserved>
    ensures { OnErr result (out.new ≡ out.old) }
{
    let f = numbers::<u16>(heap, f)?;
    let ring = Pair::approve(p.parse()?)?;
    let zero = Residues::default();
    forward_guarded(&ring, &f, &mut [zero; 256], out)?;
    Ok(())
}

// One layer, by its direction, its number, and the parts of its call.
fn serve_layer(
    heap: Global,
    way: &str,
    number: &str,
    parts: [&str; 3],
    out: &mut [u16; 256],
) -> Result<(), Unserved>
    ensures { OnErr result (out.new ≡ out.old) }
{
    let [f, incoming, outgoing] = parts;
    let Way(way) = way.parse()?;
    let number = number.parse()?;
    let f = numbers::<u16>(heap, f)?;
    let incoming = numbers::<u8>(heap, incoming)?;
    let outgoing = numbers::<u8>(heap, outgoing)?;
    layer(&f, out, number, way, &incoming, &outgoing)?;
    Ok(())
}

/// Runs the call that a line names, and writes its result into out. An error leaves out as it was.
pub fn serve(heap: Global, line: &str, out: &mut [u16; 256]) -> Result<(), Unserved>
    ensures { OnErr result (out.new ≡ out.old) }
{
    let parts: Vec<&str> = line.split('|').collect(heap)?;
    let [head, rest @ ..] = parts.as_slice() else {
        return Err(Unserved::Unreadable);
    };
    let words: Vec<&str> = head.split_whitespace().collect(heap)?;
    match (words.as_slice(), rest) {
        (["forward"], [f]) => forward(&numbers(heap, f)?, out)?,
        (["inverse"], [f]) => inverse(&numbers(heap, f)?, out)?,
        (["multiply"], [f, g]) => multiply(&numbers(heap, f)?, &numbers(heap, g)?, out)?,
        (["redundant", p, t], [f]) => serve_redundant(heap, p, t, f, out)?,
        (["pair", p], [f]) => serve_pair(heap, p, f, out)?,
        (["layer", way, number], [f, incoming, outgoing]) => {
            serve_layer(heap, way, number, [f, incoming, outgoing], out)?
        }
        _ => return Err(Unserved::Unreadable),
    }
    Ok(())
}
