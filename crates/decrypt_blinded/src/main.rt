#![tactic(auto)]

ghost use Rattle.std.specs.Prelude.{◌≡◌, ◌+◌, ◌*◌, length, IfOk, vec_len};

mod blinded;
mod rows;
mod trial;

use anyhow::anyhow;
use decryption::message::message;
use decryption::{Rank, Rows};
use guarded::{Pair, Redundant, Residues};
use input::numbers;
use rings::Refusal;
use rows::BlindedRows;
use std::alloc::Global;
use std::io;
use trial::{Trial, decrypt_and_strike};
use workspace::Workspace;

// Numbers as bytes.
fn bytes(heap: Global, numbers: &[u16]) -> anyhow::Result<Vec<u8>>
    ensures { IfOk result (λ all. vec_len all ≡ length numbers.now) }
{
    let mut all = Vec::new(heap);
    // A `for`: `try_collect` extends by one item at a time, and took seven times the instructions of this.
    for n in numbers {
        let Ok(byte) = u8::try_from(*n) else {
            return Err(anyhow!("\"a random byte is above 255\""));
        };
        all.push(byte)?;
    }
    Ok(all)
}

// Prints what came of one ring: the message, and how the release after the strike was answered.
fn report(rt: &HostRuntime, outcome: Result<Trial, Refusal>) -> anyhow::Result<()> {
    match outcome {
        Ok(trial) => {
            // into an array, so that printing takes no memory
            let mut digits = [0u8; 64];
            hex::encode_to_slice(message(&trial.numbers), &mut digits)?;
            println!(rt; "message {}", str::from_utf8(&digits)?)?;
            match trial.struck {
                Ok(_) => println!(rt; "struck word 255: released all the same")?,
                Err(why) => println!(rt; "struck word 255: release refused, {why}")?,
            }
        }
        Err(why) => println!(rt; "refused, {why}")?,
    }
    Ok(())
}

// Decrypts on both rings, each in a workspace of its own, and prints what came of it.
fn decrypt_on_both(
    rt: &HostRuntime,
    redundant: Redundant,
    pair: Pair,
    masked: BlindedRows,
    paired: BlindedRows,
) -> anyhow::Result<()> {
    let mut words = [0u32; 2048];
    let mut pairs = [Residues::default(); 2048];
    let mut first = Workspace::open(redundant);
    let mut second = Workspace::open(pair);
    let alike = first.comparable(&second);
    let one = decrypt_and_strike(&mut first, &mut words, &masked);
    let two = decrypt_and_strike(&mut second, &mut pairs, &paired);
    first.close(&mut words);
    second.close(&mut pairs);
    println!(rt; "redundant ring: v minus the sum of u[i] * s[i], modulo X^256 + 1 and 3329")?;
    report(rt, one)?;
    println!(rt; "pair ring: the same")?;
    report(rt, two)?;
    if alike {
        println!(rt;
            "one check modulus: as long as nothing strikes them, the two workspaces answer alike"
        )?;
    }
    Ok(())
}

// Takes the numbers after the rank apart: the moduli, the rows, and the random bytes of each ring.
fn decrypt_numbers(rt: &HostRuntime, rank: Rank, numbers: &[u16]) -> anyhow::Result<()> {
    let number = rank.number as usize;
    let size = 512 * number + 256;
    let random = 612 * number + 354;
    if numbers.len() != 2 + size + 2 * random {
        return Err(anyhow!(
            "\"the input has not p, t, 2 k + 1 polynomials and two lists of 612 k + 354 bytes\""
        ));
    }
    let p = numbers[0];
    let Ok(t) = u8::try_from(numbers[1]) else {
        return Err(anyhow!("\"t is above 255\""));
    };
    let masked = bytes(rt.alloc(), &numbers[2 + size..2 + size + random])?;
    let paired = bytes(
        rt.alloc(),
        &numbers[2 + size + random..2 + size + 2 * random],
    )?;
    let Ok(redundant) = Redundant::approve(p as u32, t) else {
        return Err(anyhow!("\"p or t is not approved\""));
    };
    let Ok(pair) = Pair::approve(p as u32) else {
        return Err(anyhow!("\"p is not approved\""));
    };
    println!(rt;
        "rank {number}, p = {p}, t = {t}: read {number} polynomials u, {number} transformed polynomials s and the polynomial v"
    )?;
    let rows = Rows::split(rank, &numbers[2..2 + size]);
    let masked = BlindedRows {
        rows,
        random: masked.as_slice(),
    };
    let paired = BlindedRows {
        rows,
        random: paired.as_slice(),
    };
    decrypt_on_both(rt, redundant, pair, masked, paired)
}

fn run(rt: &HostRuntime) -> anyhow::Result<()> {
    let text = io::read_to_string(rt.alloc(), rt.stdin())?;
    let all = numbers::<u16>(rt.alloc(), text.as_str())?;
    let [first, rest @ ..] = all.as_slice() else {
        return Err(anyhow!("\"the input is empty\""));
    };
    decrypt_numbers(rt, Rank::try_from(*first)?, rest)
}

fn main(rt: HostRuntime) -> anyhow::Result<()> {
    run(&rt)
}
