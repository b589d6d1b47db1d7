use crate::bench::{Step, play};
use rings::Refusal;
use std::test::Fail;

#[test]
fn forward_layers_take_a_power_of_two_of_masks_and_the_last_none(
    rt: HostRuntime,
) -> Result<(), Fail> {
    let steps = [
        (Step::Load(6, 1), None),
        (Step::Forward(6, 0), Some(Refusal::Masks(6))),
        (Step::Forward(6, 3), Some(Refusal::Masks(6))),
        (Step::Forward(6, 256), Some(Refusal::Masks(6))),
        (Step::Forward(6, 128), None),
        (Step::Forward(6, 0), Some(Refusal::Masks(6))),
        (Step::Forward(6, 2), None),
        (Step::Forward(6, 4), None),
        (Step::Forward(6, 64), None),
        (Step::Forward(6, 16), None),
        (Step::Forward(6, 127), Some(Refusal::Masks(6))),
        (Step::Forward(6, 32), None),
        (Step::Forward(6, 1), Some(Refusal::Masks(6))),
        (Step::Forward(6, 128), Some(Refusal::Masks(6))),
        (Step::Forward(6, 0), None),
        (Step::Release(6), None),
    ];
    play(&rt, 7681, 1, &steps)
}

#[test]
fn inverse_layers_take_a_power_of_two_of_masks_and_the_last_none(
    rt: HostRuntime,
) -> Result<(), Fail> {
    let steps = [
        (Step::LoadHat(7, 1), None),
        (Step::Inverse(7, 0), Some(Refusal::Masks(7))),
        (Step::Inverse(7, 3), Some(Refusal::Masks(7))),
        (Step::Inverse(7, 256), Some(Refusal::Masks(7))),
        (Step::Inverse(7, 128), None),
        (Step::Inverse(7, 0), Some(Refusal::Masks(7))),
        (Step::Inverse(7, 8), None),
        (Step::Inverse(7, 1), None),
        (Step::Inverse(7, 64), None),
        (Step::Inverse(7, 129), Some(Refusal::Masks(7))),
        (Step::Inverse(7, 2), None),
        (Step::Inverse(7, 32), None),
        (Step::Inverse(7, 1), Some(Refusal::Masks(7))),
        (Step::Inverse(7, 0), None),
        (Step::Release(7), None),
    ];
    play(&rt, 7681, 1, &steps)
}
