use crate::bench::{in_a_workspace, layer, load, released, shift};
use algebra::Direction;
use guarded::Redundant;
use histories::{Form, Kind};
use rings::Refusal;
use std::array;
use std::process::Abort;
use std::test::Fail;
use workspace::Workspace;

// How many masks the layers take; the last takes none.
const FORWARD: [usize; 7] = [1, 2, 4, 8, 16, 32, 0];

const INVERSE: [usize; 7] = [128, 64, 32, 16, 8, 4, 0];

// The word that is struck at each boundary: before layer 1, between the layers, after layer 7.
const STRUCK: [u16; 8] = [0, 1, 37, 128, 200, 254, 131, 255];

fn polynomial() -> [u16; 256] {
    array::from_fn(|k| 13 * k as u16)
}

fn masks() -> [u8; 128] {
    array::from_fn(|k| 255 - k as u8)
}

// Runs the seven layers of register 0, with a strike after so many of them; after 8 there is none.
fn run(
    space: &mut Workspace<Redundant>,
    words: &mut [u32; 2048],
    way: Direction,
    boundary: usize,
) -> Result<(), Refusal> {
    let list = masks();
    let counts = match way {
        Direction::Forward => FORWARD,
        Direction::Inverse => INVERSE,
    };
    for (done, count) in counts.iter().enumerate() {
        if done == boundary {
            shift(words, STRUCK[done])?;
        }
        layer(space, words, way, 0, &list[0..(*count).min(128)])?;
    }
    if boundary == 7 {
        shift(words, STRUCK[7])?;
    }
    Ok(())
}

fn strike_each_boundary(
    space: &mut Workspace<Redundant>,
    words: &mut [u32; 2048],
    way: Direction,
) -> Result<(), Fail> {
    let f = polynomial();
    let kind = match way {
        Direction::Forward => Kind::Polynomial,
        Direction::Inverse => Kind::Transform,
    };
    // The boundary is an argument, and no index into a slice.
    for boundary in 0..8 {
        load(space, words, kind, 0, &f, 5, &[1; 256])?;
        run(space, words, way, boundary)?;
        match released(space, words, 0) {
            Err(Refusal::Fault(_)) => {}
            _ => return Err(Fail::new(format_args!("not found: boundary {boundary}"))),
        }
    }
    Ok(())
}

fn there_and_back(
    rt: &impl Abort,
    space: &mut Workspace<Redundant>,
    words: &mut [u32; 2048],
) -> Result<(), Fail> {
    let f = polynomial();
    load(space, words, Kind::Polynomial, 0, &f, 5, &[2; 256])?;
    run(space, words, Direction::Forward, 8)?;
    let (form, _) = released(space, words, 0)?;
    assert_eq!(rt; form, Form::Transformed);
    run(space, words, Direction::Inverse, 8)?;
    let (form, out) = released(space, words, 0)?;
    assert_eq!(rt; form, Form::Natural);
    assert!(rt; out == f);
    strike_each_boundary(space, words, Direction::Forward)?;
    strike_each_boundary(space, words, Direction::Inverse)
}

#[test]
fn a_strike_at_any_boundary_of_the_layers_is_found(rt: HostRuntime) -> Result<(), Fail> {
    let ring = Redundant::approve(7681, 3)?;
    in_a_workspace(ring, 0, |space, words| there_and_back(&rt, space, words))
}
