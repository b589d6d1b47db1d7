use crate::bench::{Step, answer, in_a_workspace};
use guarded::Redundant;
use rings::Refusal;
use std::process::Abort;
use std::test::Fail;
use workspace::Workspace;

// A scratch of nines comes back all zero, and out changes only if the release is accepted.
fn cleans(
    rt: &impl Abort,
    space: &Workspace<Redundant>,
    words: &[u32],
    r: u8,
    expected: Option<Refusal>,
) -> Result<(), Fail> {
    let mut out = [9u16; 256];
    let mut scratch = [9u32; 256];
    let answer = space.release(words, r, &mut out, &mut scratch);
    assert_eq!(rt; answer.err(), expected);
    assert!(rt; scratch == [0; 256]);
    if expected.is_some() {
        assert!(rt; out == [9; 256]);
        Ok(())
    } else {
        assert!(rt; out == [0; 256]);
        Ok(())
    }
}

fn release_in_every_way(
    rt: &impl Abort,
    space: &mut Workspace<Redundant>,
    words: &mut [u32; 2048],
) -> Result<(), Fail> {
    answer(space, words, Step::Load(0, 1))?;
    answer(space, words, Step::LoadHat(1, 1))?;
    answer(space, words, Step::Load(2, 1))?;
    answer(space, words, Step::Forward(2, 1))?;
    let cases = [
        (0, None),
        (1, None),
        (8, Some(Refusal::Register(8))),
        (3, Some(Refusal::Empty(3))),
        (2, Some(Refusal::Form(2))),
    ];
    for (r, expected) in cases {
        cleans(rt, space, words, r, expected)?;
    }
    cleans(rt, space, &[0; 2047], 0, Some(Refusal::Length(0)))?;
    words[100] = 15050409;
    cleans(rt, space, words, 0, Some(Refusal::Fault(100)))?;
    words[255] = 25570049;
    cleans(rt, space, words, 0, Some(Refusal::Stray(255)))
}

fn release_with_other_lengths(
    rt: &impl Abort,
    space: &mut Workspace<Redundant>,
    words: &mut [u32; 2048],
) -> Result<(), Fail> {
    answer(space, words, Step::Load(0, 1))?;
    let mut out = [9u16; 256];
    let mut few = [9u16; 255];
    let mut scratch = [9u32; 256];
    let mut short = [9u32; 255];
    let answer = space.release(words, 0, &mut few, &mut scratch);
    assert_eq!(rt; answer.err(), Some(Refusal::Length(1)));
    assert!(rt; scratch == [0; 256]);
    assert!(rt; few == [9; 255]);
    // a wrong register too: the length comes first
    let answer = space.release(words, 8, &mut out, &mut short);
    assert_eq!(rt; answer.err(), Some(Refusal::Length(2)));
    assert!(rt; short == [9; 255]);
    assert!(rt; out == [9; 256]);
    Ok(())
}

fn release_all(
    rt: &impl Abort,
    space: &mut Workspace<Redundant>,
    words: &mut [u32; 2048],
) -> Result<(), Fail> {
    release_in_every_way(rt, space, words)?;
    release_with_other_lengths(rt, space, words)
}

#[test]
fn a_scratch_of_256_comes_back_zero_and_any_other_as_it_was(rt: HostRuntime) -> Result<(), Fail> {
    let ring = Redundant::approve(7681, 1)?;
    in_a_workspace(ring, 0, |space, words| release_all(&rt, space, words))
}
