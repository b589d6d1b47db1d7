use crate::bench::{Step, in_a_workspace, play, released};
use guarded::Redundant;
use histories::Form;
use rings::Refusal;
use std::process::Abort;
use std::test::Fail;
use workspace::Workspace;

fn strike_word_0(
    rt: &impl Abort,
    space: &mut Workspace<Redundant>,
    words: &mut [u32; 2048],
) -> Result<(), Fail> {
    space.load(words, 0, &[0; 256], 1, &[0; 256])?;
    assert_eq!(rt; words[0], 15047080);
    // 7681 more: the remainder by 7681 stays, that by 3329 becomes 1023
    words[0] = 15054761;
    let (form, out) = released(space, words, 0)?;
    assert_eq!(rt; form, Form::Natural);
    let mut expected = [0u16; 256];
    expected[0] = 1023;
    assert!(rt; out == expected);
    // 3329 more
    words[0] = 15050409;
    assert_eq!(rt; released(space, words, 0).err(), Some(Refusal::Fault(0)));
    // the first word that is no element
    words[0] = 25570049;
    assert_eq!(rt; released(space, words, 0).err(), Some(Refusal::Stray(0)));
    Ok(())
}

#[test]
fn a_strike_is_found_unless_it_keeps_the_remainder_by_p(rt: HostRuntime) -> Result<(), Fail> {
    let ring = Redundant::approve(7681, 1)?;
    in_a_workspace(ring, 0, |space, words| strike_word_0(&rt, space, words))
}

#[test]
fn the_last_coefficient_struck_alone_is_found(rt: HostRuntime) -> Result<(), Fail> {
    let steps = [
        (Step::Load(0, 1), None),
        (Step::Shift(255), None),
        (Step::Release(0), Some(Refusal::Fault(255))),
        (Step::Strike(255, 25570049), None),
        (Step::Release(0), Some(Refusal::Stray(255))),
        (Step::LoadHat(0, 1), None),
        (Step::Release(0), None),
        (Step::Shift(255), None),
        (Step::Release(0), Some(Refusal::Fault(255))),
        (Step::Load(7, 7680), None),
        (Step::Strike(2047, 25570049), None),
        (Step::Release(7), Some(Refusal::Stray(2047))),
        (Step::Load(7, 7680), None),
        (Step::Shift(2047), None),
        (Step::Release(7), Some(Refusal::Fault(255))),
        // the first of two is the place
        (Step::Shift(2020), None),
        (Step::Release(7), Some(Refusal::Fault(228))),
    ];
    play(&rt, 7681, 1, &steps)
}

#[test]
fn a_strike_goes_with_the_results(rt: HostRuntime) -> Result<(), Fail> {
    let steps = [
        (Step::LoadHat(0, 1), None),
        (Step::LoadHat(1, 2), None),
        (Step::Shift(300), None),
        (Step::Add(2, 0, 1), None),
        (Step::Release(2), Some(Refusal::Fault(44))),
        (Step::Subtract(3, 0, 1), None),
        (Step::Release(3), Some(Refusal::Fault(44))),
        (Step::Multiply(4, 0, 0), None),
        (Step::Release(4), None),
        // a load ends it
        (Step::LoadHat(1, 2), None),
        (Step::Add(2, 0, 1), None),
        (Step::Release(2), None),
    ];
    play(&rt, 7681, 1, &steps)
}

#[test]
fn a_strike_on_an_empty_register_changes_no_answer(rt: HostRuntime) -> Result<(), Fail> {
    let steps = [
        (Step::Load(0, 1), None),
        (Step::Load(1, 2), None),
        (Step::Load(6, 3), None),
        (Step::Clear(6), None),
        // register 5 was never loaded, register 6 was cleared
        (Step::Strike(1280, 0), None),
        (Step::Strike(1535, 25570049), None),
        (Step::Strike(1536, 0), None),
        (Step::Strike(1791, 4294967295), None),
        (Step::Release(5), Some(Refusal::Empty(5))),
        (Step::Release(6), Some(Refusal::Empty(6))),
        (Step::Refresh(6), Some(Refusal::Empty(6))),
        (Step::Add(5, 0, 1), None),
        (Step::Release(5), None),
        (Step::Load(6, 3), None),
        (Step::Rise(6), None),
        (Step::Release(6), None),
        (Step::Release(0), None),
        (Step::Release(1), None),
    ];
    play(&rt, 7681, 1, &steps)
}
