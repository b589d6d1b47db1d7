use crate::bench::{Step, in_a_workspace, load, play};
use guarded::Redundant;
use histories::Kind;
use rings::Refusal;
use std::process::Abort;
use std::test::Fail;
use workspace::Workspace;

#[test]
fn registers_are_0_to_7(rt: HostRuntime) -> Result<(), Fail> {
    let steps = [
        (Step::Load(8, 0), Some(Refusal::Register(8))),
        (Step::LoadHat(255, 0), Some(Refusal::Register(255))),
        (Step::Forward(8, 3), Some(Refusal::Register(8))),
        (Step::Inverse(255, 3), Some(Refusal::Register(255))),
        (Step::Refresh(8), Some(Refusal::Register(8))),
        (Step::Clear(255), Some(Refusal::Register(255))),
        (Step::Release(8), Some(Refusal::Register(8))),
        (Step::Add(8, 9, 255), Some(Refusal::Register(8))),
        (Step::Subtract(0, 255, 8), Some(Refusal::Register(255))),
        (Step::Multiply(0, 0, 8), Some(Refusal::Register(8))),
    ];
    play(&rt, 7681, 1, &steps)
}

#[test]
fn a_witness_is_from_1_to_one_below_p(rt: HostRuntime) -> Result<(), Fail> {
    let steps = [
        (Step::Load(0, 0), Some(Refusal::Witness)),
        (Step::Load(0, 7681), Some(Refusal::Witness)),
        (Step::LoadHat(0, 0), Some(Refusal::Witness)),
        (Step::LoadHat(0, 4294967295), Some(Refusal::Witness)),
        (Step::Release(0), Some(Refusal::Empty(0))),
        (Step::Load(0, 7680), None),
        (Step::LoadHat(1, 7680), None),
        (Step::Release(0), None),
        (Step::Release(1), None),
    ];
    play(&rt, 7681, 167, &steps)?;
    let steps = [
        (Step::Load(0, 12289), Some(Refusal::Witness)),
        (Step::Load(0, 12288), None),
        (Step::Release(0), None),
    ];
    play(&rt, 12289, 103, &steps)
}

fn at_the_last_index(
    rt: &impl Abort,
    space: &mut Workspace<Redundant>,
    words: &mut [u32],
    kind: Kind,
) -> Result<(), Fail> {
    let mut f = [3328u16; 256];
    let mut bytes = [2u8; 256];
    load(space, words, kind, 0, &f, 1, &bytes)?;
    bytes[255] = 3;
    let answer = load(space, words, kind, 0, &f, 1, &bytes);
    assert_eq!(rt; answer.err(), Some(Refusal::Digit(255)));
    let answer = load(space, words, kind, 0, &f, 0, &bytes);
    assert_eq!(rt; answer.err(), Some(Refusal::Witness));
    f[255] = 3329;
    let answer = load(space, words, kind, 0, &f, 0, &bytes);
    assert_eq!(rt; answer.err(), Some(Refusal::Range(255)));
    // no register was loaded there: the bytes are looked at first
    let answer = space.refresh(words, 1, &bytes);
    assert_eq!(rt; answer.err(), Some(Refusal::Digit(255)));
    Ok(())
}

fn both_kinds(
    rt: &impl Abort,
    space: &mut Workspace<Redundant>,
    words: &mut [u32],
) -> Result<(), Fail> {
    at_the_last_index(rt, space, words, Kind::Polynomial)?;
    at_the_last_index(rt, space, words, Kind::Transform)
}

#[test]
fn coefficients_are_below_3329_and_bytes_below_t(rt: HostRuntime) -> Result<(), Fail> {
    let ring = Redundant::approve(7681, 3)?;
    in_a_workspace(ring, 0, |space, words| both_kinds(&rt, space, words))
}
