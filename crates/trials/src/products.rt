use crate::bench::{Step, play};
use rings::Refusal;
use std::test::Fail;

#[test]
fn a_silent_witness_makes_no_factor(rt: HostRuntime) -> Result<(), Fail> {
    let steps = [
        (Step::LoadHat(0, 1), None),
        (Step::LoadHat(1, 1), None),
        (Step::LoadHat(2, 7680), None),
        (Step::Subtract(3, 0, 1), None),
        (Step::Multiply(4, 3, 1), Some(Refusal::Silent(3))),
        (Step::Multiply(4, 1, 3), Some(Refusal::Silent(3))),
        (Step::Release(3), None),
        // 1 + 7680 leaves 0
        (Step::Add(5, 0, 2), None),
        (Step::Multiply(4, 5, 3), Some(Refusal::Silent(5))),
        (Step::Multiply(4, 0, 2), None),
        (Step::Release(4), None),
    ];
    play(&rt, 7681, 1, &steps)
}

#[test]
fn a_product_makes_no_factor_and_neither_does_its_sum(rt: HostRuntime) -> Result<(), Fail> {
    let steps = [
        (Step::LoadHat(0, 1), None),
        (Step::LoadHat(1, 2), None),
        (Step::Multiply(5, 0, 1), None),
        (Step::Multiply(6, 5, 0), Some(Refusal::Level(5))),
        (Step::Multiply(6, 0, 5), Some(Refusal::Level(5))),
        (Step::Multiply(5, 5, 5), Some(Refusal::Level(5))),
        // the sum has the level of the product and a witness that is not silent
        (Step::Add(6, 0, 5), None),
        (Step::Multiply(7, 6, 1), Some(Refusal::Level(6))),
        // a silent register, and a product behind it: levels come first
        (Step::Subtract(3, 0, 0), None),
        (Step::Multiply(7, 3, 5), Some(Refusal::Level(5))),
        (Step::Multiply(7, 3, 0), Some(Refusal::Silent(3))),
        (Step::Release(5), None),
        (Step::Release(6), None),
        (Step::Fall(6), None),
        (Step::Release(6), None),
        (Step::LoadHat(5, 1), None),
        (Step::Multiply(5, 5, 0), None),
    ];
    play(&rt, 7681, 1, &steps)
}

#[test]
fn words_are_tested_after_the_records(rt: HostRuntime) -> Result<(), Fail> {
    let steps = [
        (Step::LoadHat(0, 1), None),
        (Step::LoadHat(1, 1), None),
        (Step::Subtract(2, 0, 1), None),
        (Step::Strike(255, 4294967295), None),
        (Step::Strike(256, 25570049), None),
        (Step::Multiply(4, 0, 2), Some(Refusal::Silent(2))),
        (Step::Multiply(4, 0, 1), Some(Refusal::Stray(255))),
        (Step::Multiply(4, 1, 0), Some(Refusal::Stray(256))),
        (Step::Add(4, 2, 1), Some(Refusal::Stray(256))),
        (Step::Subtract(0, 0, 0), Some(Refusal::Stray(255))),
        (Step::Refresh(1), Some(Refusal::Stray(256))),
        (Step::Inverse(1, 3), Some(Refusal::Masks(1))),
        (Step::Inverse(1, 1), Some(Refusal::Stray(256))),
        (Step::Release(1), Some(Refusal::Stray(256))),
        // a result overwrites what stood there
        (Step::Add(1, 2, 2), None),
        (Step::Release(1), None),
    ];
    play(&rt, 7681, 1, &steps)
}
