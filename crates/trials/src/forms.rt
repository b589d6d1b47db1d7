use crate::bench::{Step, play};
use rings::Refusal;
use std::test::Fail;

#[test]
fn one_register_is_in_work_at_a_time(rt: HostRuntime) -> Result<(), Fail> {
    let steps = [
        (Step::Load(0, 1), None),
        (Step::Load(1, 1), None),
        (Step::LoadHat(7, 1), None),
        (Step::Forward(0, 1), None),
        (Step::Forward(1, 1), Some(Refusal::Busy(0))),
        (Step::Inverse(7, 1), Some(Refusal::Busy(0))),
        (Step::Forward(7, 1), Some(Refusal::Form(7))),
        (Step::Forward(1, 3), Some(Refusal::Busy(0))),
        (Step::Forward(0, 2), None),
        (Step::Clear(0), None),
        (Step::Inverse(7, 4), None),
        (Step::Forward(1, 1), Some(Refusal::Busy(7))),
        (Step::Clear(7), None),
        (Step::Rise(1), None),
        (Step::Fall(1), None),
        (Step::Load(0, 1), None),
        (Step::Rise(0), None),
        (Step::Release(0), None),
        (Step::Release(1), None),
    ];
    play(&rt, 7681, 1, &steps)
}

#[test]
fn a_register_in_work_takes_layers_of_its_direction_refresh_and_clear(
    rt: HostRuntime,
) -> Result<(), Fail> {
    let steps = [
        (Step::Load(0, 1), None),
        (Step::Load(1, 1), None),
        (Step::LoadHat(2, 1), None),
        (Step::Forward(0, 1), None),
        (Step::Load(0, 1), Some(Refusal::Form(0))),
        (Step::LoadHat(0, 1), Some(Refusal::Form(0))),
        (Step::Inverse(0, 1), Some(Refusal::Form(0))),
        (Step::Release(0), Some(Refusal::Form(0))),
        (Step::Add(0, 1, 1), Some(Refusal::Form(0))),
        (Step::Multiply(0, 2, 2), Some(Refusal::Form(0))),
        (Step::Subtract(3, 0, 1), Some(Refusal::Form(0))),
        (Step::Add(3, 1, 0), Some(Refusal::Form(0))),
        (Step::Refresh(0), None),
        (Step::Clear(0), None),
        (Step::Inverse(2, 1), None),
        (Step::Forward(2, 1), Some(Refusal::Form(2))),
        (Step::Load(2, 1), Some(Refusal::Form(2))),
        (Step::Release(2), Some(Refusal::Form(2))),
    ];
    play(&rt, 7681, 1, &steps)
}

#[test]
fn of_two_forms_that_differ_the_second_is_named(rt: HostRuntime) -> Result<(), Fail> {
    let steps = [
        (Step::Load(1, 1), None),
        (Step::LoadHat(2, 1), None),
        (Step::Add(3, 1, 2), Some(Refusal::Form(2))),
        (Step::Subtract(3, 2, 1), Some(Refusal::Form(1))),
        (Step::Multiply(3, 1, 2), Some(Refusal::Form(1))),
        (Step::Multiply(3, 2, 1), Some(Refusal::Form(1))),
        (Step::Multiply(3, 1, 1), Some(Refusal::Form(1))),
        (Step::Inverse(1, 1), Some(Refusal::Form(1))),
        (Step::Forward(2, 1), Some(Refusal::Form(2))),
        (Step::Release(3), Some(Refusal::Empty(3))),
    ];
    play(&rt, 7681, 1, &steps)
}

#[test]
fn an_empty_register_is_found_before_a_form(rt: HostRuntime) -> Result<(), Fail> {
    let steps = [
        (Step::Release(7), Some(Refusal::Empty(7))),
        (Step::Refresh(6), Some(Refusal::Empty(6))),
        (Step::Forward(5, 1), Some(Refusal::Empty(5))),
        (Step::Inverse(4, 1), Some(Refusal::Empty(4))),
        (Step::Clear(3), None),
        (Step::Load(0, 1), None),
        (Step::Load(1, 1), None),
        (Step::Forward(0, 1), None),
        (Step::Add(0, 5, 6), Some(Refusal::Empty(5))),
        (Step::Add(0, 1, 6), Some(Refusal::Empty(6))),
        (Step::Multiply(2, 1, 6), Some(Refusal::Empty(6))),
        (Step::Subtract(2, 0, 6), Some(Refusal::Empty(6))),
        (Step::Forward(5, 1), Some(Refusal::Empty(5))),
        (Step::Clear(0), None),
        (Step::Release(0), Some(Refusal::Empty(0))),
    ];
    play(&rt, 7681, 1, &steps)
}
