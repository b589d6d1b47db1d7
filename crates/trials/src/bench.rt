use algebra::Direction;
use guarded::{GuardedRing, Redundant};
use histories::{Form, Kind, Operation};
use rings::{Refusal, Ring};
use std::process::Abort;
use std::test::Fail;
use workspace::Workspace;

/// A call, or a strike between two calls. Every polynomial is 0 and every redundancy byte is 0.
#[derive(Clone, Copy)]
pub(crate) enum Step {
    /// Loads a register with this witness.
    Load(u8, u32),
    LoadHat(u8, u32),
    /// One layer of a register, under so many masks.
    Forward(u8, u16),
    Inverse(u8, u16),
    /// All seven layers of a register.
    Rise(u8),
    Fall(u8),
    Add(u8, u8, u8),
    Subtract(u8, u8, u8),
    Multiply(u8, u8, u8),
    Refresh(u8),
    Clear(u8),
    Release(u8),
    /// Puts this in place of a word.
    Strike(u16, u32),
    /// Adds 3329 to a word modulo 3329 * 7681, which changes its remainder by 7681 and no other.
    Shift(u16),
}

// A workspace has a call for each kind of load, join and layer, so a test that runs over the kinds has to choose one: the three below do.

/// Loads register r with a polynomial or a transform.
pub(crate) fn load<G: GuardedRing>(
    space: &mut Workspace<G>,
    words: &mut [G::Word],
    kind: Kind,
    r: u8,
    f: &[u16],
    c: u32,
    bytes: &[u8],
) -> Result<(), Refusal> {
    match kind {
        Kind::Polynomial => space.load(words, r, f, c, bytes),
        Kind::Transform => space.load_hat(words, r, f, c, bytes),
    }
}

/// Puts the sum, the difference or the product of a and b into d.
pub(crate) fn join<G: GuardedRing>(
    space: &mut Workspace<G>,
    words: &mut [G::Word],
    operation: Operation,
    d: u8,
    a: u8,
    b: u8,
) -> Result<(), Refusal> {
    match operation {
        Operation::Plus => space.add(words, d, a, b),
        Operation::Minus => space.subtract(words, d, a, b),
        Operation::Times => space.multiply(words, d, a, b),
    }
}

/// Runs one layer of a transform of register r.
pub(crate) fn layer<G: GuardedRing>(
    space: &mut Workspace<G>,
    words: &mut [G::Word],
    way: Direction,
    r: u8,
    masks: &[u8],
) -> Result<(), Refusal> {
    match way {
        Direction::Forward => space.forward(words, r, masks),
        Direction::Inverse => space.inverse(words, r, masks),
    }
}

/// Runs the seven layers of a transform of register r, each but the last under one mask.
pub(crate) fn turn<G: GuardedRing>(
    space: &mut Workspace<G>,
    words: &mut [G::Word],
    way: Direction,
    r: u8,
    mask: u8,
) -> Result<(), Refusal> {
    for _ in 1..7 {
        layer(space, words, way, r, &[mask])?;
    }
    layer(space, words, way, r, &[])
}

/// Releases register r, and hands back the form and the numbers.
pub(crate) fn released<G: GuardedRing>(
    space: &Workspace<G>,
    words: &[G::Word],
    r: u8,
) -> Result<(Form, [u16; 256]), Refusal> {
    let mut out = [9u16; 256];
    let mut scratch = [9u32; 256];
    let form = space.release(words, r, &mut out, &mut scratch)?;
    Ok((form, out))
}

fn put(words: &mut [u32], place: u16, word: u32) -> Result<(), Refusal> {
    let place = place as usize;
    if place < words.len() {
        words[place] = word;
    }
    Ok(())
}

/// Changes the remainder of a word by 7681 and no other; it stays an element.
pub(crate) fn shift(words: &mut [u32], place: u16) -> Result<(), Refusal> {
    let place = place as usize;
    if place < words.len() {
        words[place] = ((words[place] as u64 + 3329) % 25570049) as u32;
    }
    Ok(())
}

fn layer_under(
    space: &mut Workspace<Redundant>,
    words: &mut [u32],
    way: Direction,
    r: u8,
    count: u16,
) -> Result<(), Refusal> {
    let masks = [77u8; 256];
    layer(space, words, way, r, &masks[0..(count as usize).min(256)])
}

fn release(space: &Workspace<Redundant>, words: &[u32], r: u8) -> Result<(), Refusal> {
    released(space, words, r)?;
    Ok(())
}

/// What a step is answered.
pub(crate) fn answer(
    space: &mut Workspace<Redundant>,
    words: &mut [u32],
    step: Step,
) -> Result<(), Refusal> {
    let f = [0u16; 256];
    let bytes = [0u8; 256];
    match step {
        Step::Load(r, c) => load(space, words, Kind::Polynomial, r, &f, c, &bytes),
        Step::LoadHat(r, c) => load(space, words, Kind::Transform, r, &f, c, &bytes),
        Step::Forward(r, count) => layer_under(space, words, Direction::Forward, r, count),
        Step::Inverse(r, count) => layer_under(space, words, Direction::Inverse, r, count),
        Step::Rise(r) => turn(space, words, Direction::Forward, r, 5),
        Step::Fall(r) => turn(space, words, Direction::Inverse, r, 9),
        Step::Add(d, a, b) => join(space, words, Operation::Plus, d, a, b),
        Step::Subtract(d, a, b) => join(space, words, Operation::Minus, d, a, b),
        Step::Multiply(d, a, b) => join(space, words, Operation::Times, d, a, b),
        Step::Refresh(r) => space.refresh(words, r, &bytes),
        Step::Clear(r) => space.clear(words, r),
        Step::Release(r) => release(space, words, r),
        Step::Strike(place, word) => put(words, place, word),
        Step::Shift(place) => shift(words, place),
    }
}

// A refusal leaves the words as they were; that it leaves the records, the answers to the later steps show.
fn answer_all(
    rt: &impl Abort,
    space: &mut Workspace<Redundant>,
    words: &mut [u32; 2048],
    steps: &[(Step, Option<Refusal>)],
) -> Result<(), Fail> {
    for (i, (step, expected)) in steps.iter().enumerate() {
        let before = *words;
        assert_eq!(rt; answer(space, words, *step).err(), *expected, "step {i}");
        if expected.is_some() {
            assert!(rt; *words == before, "step {i}");
        }
    }
    Ok(())
}

/// Runs a part of a test in a new workspace whose words are all this word, and closes the workspace.
// Over the redundant ring alone: of an array of any ring's words it is not known that it fits in memory.
pub(crate) fn in_a_workspace<F>(ring: Redundant, word: u32, run: F) -> Result<(), Fail>
where
    F: FnOnce(&mut Workspace<Redundant>, &mut [u32; 2048]) -> Result<(), Fail>,
    requires { F.IsAlwaysCallable run }
{
    let mut space = Workspace::open(ring);
    let mut words = [word; 2048];
    let answer = run(&mut space, &mut words);
    space.close(&mut words);
    answer
}

/// Carries out the steps in a new workspace; each has to be refused as said beside it, or accepted.
pub(crate) fn play(
    rt: &impl Abort,
    p: u32,
    t: u8,
    steps: &[(Step, Option<Refusal>)],
) -> Result<(), Fail> {
    let ring = Redundant::approve(p, t)?;
    in_a_workspace(
        ring,
        4294967295,
        |space, words| answer_all(rt, space, words, steps),
    )
}
