ghost use Rattle.std.specs.Prelude.{◌≡◌, ◌*◌, ◌^◌, ◌<◌, ◌≤◌};

use crate::check::CheckModulus;
use rings::Divisor;

pub mod arithmetic;

/// Numbers modulo n = 3329 p, each held in t ways by the words below m = n t. Made by `approve` alone.
#[derive(Drop)]
pub struct Redundant {
    check: CheckModulus,
    t: u8,
    n: u32,
    // m
    words: Divisor,
    ghost some: { 1 ≤ t },
    ghost most: { t ≤ 167 },
    ghost joint: { n ≡ 3329 * check.p.number },
    ghost counts: { words.number ≡ 3329 * check.p.number * t },
    ghost fits: { 3329 * check.p.number * t < 2 ^ 32 },
}
