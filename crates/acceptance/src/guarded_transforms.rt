use guarded::{Pair, Redundant, Residues};
use rings::Refusal;
use std::test::Fail;
use transform::{forward, forward_guarded};

#[test]
fn guarded_rings_give_the_plain_transform(rt: HostRuntime) -> Result<(), Fail> {
    let mut f: [u16; 256] = [3328; 256];
    f[0] = 1;
    let mut plain: [u16; 256] = [0; 256];
    forward(&f, &mut plain)?;

    let mut out: [u16; 256] = [9; 256];
    let ring = Redundant::approve(12289, 103)?;
    let mut words: [u32; 256] = [0; 256];
    forward_guarded(&ring, &f, &mut words, &mut out)?;
    assert!(rt; out == plain);

    out = [9; 256];
    let pair = Pair::approve(7681)?;
    let mut pairs: [Residues; 256] = [Residues::default(); 256];
    forward_guarded(&pair, &f, &mut pairs, &mut out)?;
    assert!(rt; out == plain);
    Ok(())
}

#[test]
fn a_refused_guarded_transform_changes_nothing(rt: HostRuntime) -> Result<(), Fail> {
    let ring = Redundant::approve(7681, 167)?;
    let mut words: [u32; 256] = [7; 256];
    let mut few: [u32; 2] = [7; 2];
    let mut out: [u16; 256] = [9; 256];
    assert_eq!(rt;
        forward_guarded(&ring, &[], &mut few, &mut out),
        Err(Refusal::Length(0))
    );
    assert_eq!(rt;
        forward_guarded(&ring, &[0; 256], &mut few, &mut out),
        Err(Refusal::Length(1))
    );
    assert_eq!(rt;
        forward_guarded(&ring, &[0; 256], &mut words, &mut []),
        Err(Refusal::Length(2))
    );
    assert_eq!(rt;
        forward_guarded(&ring, &[3329; 256], &mut words, &mut out),
        Err(Refusal::Range(0))
    );
    assert!(rt; words == [7; 256]);
    assert!(rt; out == [9; 256]);
    Ok(())
}
