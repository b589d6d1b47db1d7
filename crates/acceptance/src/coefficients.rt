use rings::Refusal;
use std::test::Fail;
use transform::{forward, inverse, multiply};

#[test]
fn coefficient_3328_passes_and_3329_does_not(rt: HostRuntime) -> Result<(), Fail> {
    let mut f: [u16; 256] = [3328; 256];
    let mut out: [u16; 256] = [9; 256];
    forward(&f, &mut out)?;
    inverse(&f, &mut out)?;
    multiply(&f, &f, &mut out)?;
    f[255] = 3329;
    assert_eq!(rt; forward(&f, &mut out), Err(Refusal::Range(255)));
    assert_eq!(rt; inverse(&f, &mut out), Err(Refusal::Range(255)));
    assert_eq!(rt; multiply(&[0; 256], &f, &mut out), Err(Refusal::Range(255)));
    Ok(())
}

#[test]
fn the_first_coefficient_out_of_range_is_the_place(rt: HostRuntime) {
    let mut f: [u16; 256] = [0; 256];
    f[7] = 65535;
    f[200] = 3329;
    let mut out: [u16; 256] = [9; 256];
    assert_eq!(rt; forward(&f, &mut out), Err(Refusal::Range(7)));
    assert_eq!(rt;
        multiply(&[3329; 256], &f, &mut out),
        Err(Refusal::Range(0))
    );
    assert_eq!(rt; out[0], 9);
    assert_eq!(rt; out[255], 9);
}

#[test]
fn the_inverse_undoes_the_transform(rt: HostRuntime) -> Result<(), Fail> {
    let mut f: [u16; 256] = [0; 256];
    f[1] = 1;
    f[255] = 3328;
    let mut there: [u16; 256] = [0; 256];
    let mut back: [u16; 256] = [0; 256];
    forward(&f, &mut there)?;
    inverse(&there, &mut back)?;
    assert!(rt; back == f);
    Ok(())
}
