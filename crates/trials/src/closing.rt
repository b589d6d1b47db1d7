use crate::bench::in_a_workspace;
use guarded::{Pair, Redundant, Residues};
use std::process::Abort;
use std::test::Fail;
use workspace::Workspace;

fn refresh_and_clear(
    rt: &impl Abort,
    space: &mut Workspace<Redundant>,
    words: &mut [u32; 2048],
) -> Result<(), Fail> {
    space.load(words, 7, &[1; 256], 1, &[0; 256])?;
    assert!(rt; words[1791] == 9 && words[1792] == 1 && words[2047] == 1);
    space.refresh(words, 7, &[2; 256])?;
    // lift(1, 1, 2) is 1 + 2 * 25570049
    assert!(rt; words[1792..2048].iter().all(|w| *w == 51140099));
    assert!(rt; words[0] == 9 && words[1791] == 9);
    let before = *words;
    space.clear(words, 7)?;
    assert!(rt; *words == before);
    Ok(())
}

#[test]
fn refresh_renumbers_the_words_and_clear_leaves_them(rt: HostRuntime) -> Result<(), Fail> {
    let ring = Redundant::approve(7681, 3)?;
    in_a_workspace(ring, 9, |space, words| refresh_and_clear(&rt, space, words))
}

#[test]
fn closing_wipes_the_words_however_many(rt: HostRuntime) -> Result<(), Fail> {
    let mut words = [9u32; 2048];
    Workspace::open(Redundant::approve(7681, 3)?).close(&mut words);
    assert!(rt; words == [0; 2048]);
    let mut five = [4294967295u32; 5];
    Workspace::open(Redundant::approve(12289, 1)?).close(&mut five);
    assert!(rt; five == [0; 5]);
    let nine = Residues {
        coefficient: 9,
        check: 65535,
    };
    let zero = Residues::default();
    let mut pairs = [nine; 2048];
    Workspace::open(Pair::approve(7681)?).close(&mut pairs);
    assert!(rt; pairs == [zero; 2048]);
    let mut long = [nine; 2049];
    Workspace::open(Pair::approve(12289)?).close(&mut long);
    assert!(rt; long == [zero; 2049]);
    Ok(())
}
