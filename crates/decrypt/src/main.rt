#![tactic(auto)]

mod arithmetic;

use anyhow::anyhow;
use arithmetic::decrypt;
use decryption::message::message;
use decryption::{Rank, Rows};
use input::numbers;
use std::io;

fn run(rt: &HostRuntime) -> anyhow::Result<()> {
    let text = io::read_to_string(rt.alloc(), rt.stdin())?;
    let all = numbers::<u16>(rt.alloc(), text.as_str())?;
    let [first, rest @ ..] = all.as_slice() else {
        return Err(anyhow!("\"the input is empty\""));
    };
    let rank = Rank::try_from(*first)?;
    let number = rank.number;
    if rest.len() != 512 * number as usize + 256 {
        return Err(anyhow!("\"the input has not 2 k + 1 polynomials of 256 coefficients\""));
    }
    let rows = Rows::split(rank, rest);
    println!(rt;
        "rank {number}: read {number} polynomials u, {number} transformed polynomials s and the polynomial v"
    )?;
    let Some(w) = decrypt(number, rows.u, rows.s, rows.v) else {
        return Err(anyhow!("\"a coefficient is above 3328\""));
    };
    println!(rt; "computed v minus the sum of u[i] * s[i], modulo X^256 + 1 and 3329")?;
    // into an array, so that printing takes no memory
    let mut digits = [0u8; 64];
    hex::encode_to_slice(message(&w), &mut digits)?;
    println!(rt; "message {}", str::from_utf8(&digits)?)?;
    Ok(())
}

fn main(rt: HostRuntime) -> anyhow::Result<()> {
    run(&rt)
}
