use crate::bench::{Step, answer, load};
use guarded::Redundant;
use histories::Kind;
use rings::Refusal;
use std::process::Abort;
use std::test::Fail;
use workspace::Workspace;

// The registers are wrong too, so the lengths come first.
fn refused(rt: &impl Abort, space: &mut Workspace<Redundant>, words: &mut [u32]) {
    let steps = [
        Step::Load(8, 0),
        Step::LoadHat(8, 0),
        Step::Forward(8, 0),
        Step::Inverse(8, 0),
        Step::Add(8, 8, 8),
        Step::Subtract(8, 8, 8),
        Step::Multiply(8, 8, 8),
        Step::Refresh(8),
        Step::Clear(8),
        Step::Release(8),
    ];
    for step in steps {
        assert_eq!(rt; answer(space, words, step).err(), Some(Refusal::Length(0)));
    }
}

// Every other argument is wrong too.
fn load_other_lengths(
    rt: &impl Abort,
    space: &mut Workspace<Redundant>,
    words: &mut [u32],
    kind: Kind,
) {
    let f = [4000u16; 257];
    let bytes = [9u8; 256];
    let first = Some(Refusal::Length(1));
    let second = Some(Refusal::Length(2));
    assert_eq!(rt; load(space, words, kind, 8, &f, 0, &[]).err(), first);
    assert_eq!(rt;
        load(space, words, kind, 8, &f[0..255], 0, &[]).err(),
        first
    );
    assert_eq!(rt;
        load(space, words, kind, 8, &f[0..256], 0, &bytes[0..255]).err(),
        second
    );
}

fn other_lengths(rt: &impl Abort, space: &mut Workspace<Redundant>) -> Result<(), Fail> {
    let mut many = [7u32; 2049];
    refused(rt, space, &mut many);
    refused(rt, space, &mut many[0..2047]);
    assert!(rt; many == [7; 2049]);
    let words = &mut many[0..2048];
    load_other_lengths(rt, space, words, Kind::Polynomial);
    load_other_lengths(rt, space, words, Kind::Transform);
    let refreshed = space.refresh(words, 8, &[9; 255]);
    assert_eq!(rt; refreshed.err(), Some(Refusal::Length(1)));
    let mut out = [9u16; 257];
    let mut scratch = [9u32; 257];
    let released = space.release(words, 8, &mut out, &mut scratch);
    assert_eq!(rt; released.err(), Some(Refusal::Length(1)));
    assert!(rt; many == [7; 2049]);
    Ok(())
}

#[test]
fn lengths_come_before_all_else_in_their_order(rt: HostRuntime) -> Result<(), Fail> {
    let mut space = Workspace::open(Redundant::approve(7681, 1)?);
    let answer = other_lengths(&rt, &mut space);
    space.close(&mut []);
    answer
}
