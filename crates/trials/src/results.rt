use crate::bench::{in_a_workspace, join, load, released, turn};
use algebra::Direction;
use guarded::{GuardedRing, Pair, Redundant, Residues};
use histories::{Kind, Operation};
use rings::{Refusal, Ring};
use std::process::Abort;
use std::test::Fail;
use workspace::Workspace;

// The polynomial x X^k.
fn monomial(x: u16, k: u8) -> [u16; 256] {
    let mut f = [0u16; 256];
    f[k as usize] = x;
    f
}

// X^i goes into register a and X^j into b, and their product into d.
fn product<G: GuardedRing>(
    space: &mut Workspace<G>,
    words: &mut [G::Word],
    (i, j): (u8, u8),
    (d, a, b): (u8, u8, u8),
    mask: u8,
    byte: u8,
) -> Result<(), Refusal> {
    let bytes = [byte; 256];
    load(
        space,
        words,
        Kind::Polynomial,
        a,
        &monomial(1, i),
        2,
        &bytes,
    )?;
    load(
        space,
        words,
        Kind::Polynomial,
        b,
        &monomial(1, j),
        3,
        &bytes,
    )?;
    turn(space, words, Direction::Forward, a, mask)?;
    if a != b {
        turn(space, words, Direction::Forward, b, mask)?;
    }
    join(space, words, Operation::Times, d, a, b)?;
    turn(space, words, Direction::Inverse, d, mask)
}

// X^256 is -1. The result may stand in a new register, in an operand, or in both.
fn products<G: GuardedRing>(
    rt: &impl Abort,
    space: &mut Workspace<G>,
    words: &mut [G::Word],
    mask: u8,
    byte: u8,
) -> Result<(), Fail> {
    let cases = [
        (255, 1, 2, 0, 1),
        (255, 1, 0, 0, 1),
        (1, 255, 1, 0, 1),
        (128, 128, 3, 3, 3),
    ];
    for (i, j, d, a, b) in cases {
        product(space, words, (i, j), (d, a, b), mask, byte)?;
        let (_, out) = released(space, words, d)?;
        assert!(rt; out == monomial(3328, 0));
    }
    Ok(())
}

// Register 0 holds 0 and register 1 holds X^255; each case names the coefficient of X^255 that its result has.
fn sums<G: GuardedRing>(
    rt: &impl Abort,
    space: &mut Workspace<G>,
    words: &mut [G::Word],
    byte: u8,
) -> Result<(), Fail> {
    let bytes = [byte; 256];
    load(
        space,
        words,
        Kind::Polynomial,
        0,
        &monomial(0, 0),
        2,
        &bytes,
    )?;
    load(
        space,
        words,
        Kind::Polynomial,
        1,
        &monomial(1, 255),
        3,
        &bytes,
    )?;
    let cases = [
        (Operation::Minus, 2, 0, 1, 3328),
        (Operation::Plus, 2, 2, 1, 0),
        (Operation::Minus, 0, 0, 1, 3328),
        (Operation::Plus, 1, 1, 1, 2),
        (Operation::Minus, 1, 2, 1, 3327),
        (Operation::Minus, 1, 1, 1, 0),
    ];
    for (operation, d, a, b, x) in cases {
        join(space, words, operation, d, a, b)?;
        let (_, out) = released(space, words, d)?;
        assert!(rt; out == monomial(x, 255));
    }
    Ok(())
}

fn all<G: GuardedRing>(
    rt: &impl Abort,
    space: &mut Workspace<G>,
    words: &mut [G::Word],
    mask: u8,
    byte: u8,
) -> Result<(), Fail> {
    sums(rt, space, words, byte)?;
    products(rt, space, words, mask, byte)
}

fn in_a_redundant_ring(rt: &impl Abort, p: u32, t: u8, mask: u8, byte: u8) -> Result<(), Fail> {
    let ring = Redundant::approve(p, t)?;
    in_a_workspace(ring, 0, |space, words| all(rt, space, words, mask, byte))
}

#[test]
fn sums_and_products_are_the_same_in_every_ring(rt: HostRuntime) -> Result<(), Fail> {
    in_a_redundant_ring(&rt, 7681, 1, 0, 0)?;
    in_a_redundant_ring(&rt, 7681, 3, 200, 2)?;
    in_a_redundant_ring(&rt, 12289, 103, 3, 101)?;
    let mut space = Workspace::open(Pair::approve(7681)?);
    let mut words = [Residues::default(); 2048];
    let answer = all(&rt, &mut space, &mut words, 99, 0);
    space.close(&mut words);
    answer
}

#[test]
fn workspaces_of_one_check_modulus_are_comparable(rt: HostRuntime) -> Result<(), Fail> {
    let pair = Pair::approve(7681)?;
    let same = Redundant::approve(7681, 3)?;
    let other = Redundant::approve(12289, 3)?;
    let first = Workspace::open(pair);
    let second = Workspace::open(same);
    let third = Workspace::open(other);
    let alike = first.comparable(&second) && second.comparable(&first);
    let unlike = first.comparable(&third) || third.comparable(&second);
    first.close(&mut []);
    second.close(&mut []);
    third.close(&mut []);
    assert!(rt; alike && !unlike);
    Ok(())
}
