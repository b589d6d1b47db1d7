use algebra::Direction;
use rings::Refusal;
use std::test::Fail;
use transform::layer;

#[test]
fn layer_1_takes_128_masks_and_neither_0_nor_3(rt: HostRuntime) -> Result<(), Fail> {
    let f: [u16; 256] = [1; 256];
    let mut out: [u16; 256] = [9; 256];
    layer(&f, &mut out, 1, Direction::Forward, &[], &[255; 128])?;
    layer(&f, &mut out, 1, Direction::Inverse, &[], &[255; 128])?;
    out = [9; 256];
    assert_eq!(rt;
        layer(&f, &mut out, 1, Direction::Forward, &[], &[]),
        Err(Refusal::Masks(0))
    );
    assert_eq!(rt;
        layer(&f, &mut out, 1, Direction::Inverse, &[], &[0; 3]),
        Err(Refusal::Masks(0))
    );
    assert_eq!(rt;
        layer(&f, &mut out, 2, Direction::Forward, &[1; 64], &[]),
        Err(Refusal::Masks(0))
    );
    assert_eq!(rt;
        layer(&f, &mut out, 7, Direction::Forward, &[1; 64], &[1]),
        Err(Refusal::Masks(0))
    );
    assert!(rt; out == [9; 256]);
    Ok(())
}

#[test]
fn layers_are_1_to_7(rt: HostRuntime) {
    let f: [u16; 256] = [1; 256];
    let mut out: [u16; 256] = [9; 256];
    assert_eq!(rt;
        layer(&f, &mut out, 0, Direction::Forward, &[], &[3]),
        Err(Refusal::Layer)
    );
    assert_eq!(rt;
        layer(&f, &mut out, 8, Direction::Inverse, &[3], &[]),
        Err(Refusal::Layer)
    );
    assert_eq!(rt;
        layer(&f, &mut out, 255, Direction::Forward, &[], &[]),
        Err(Refusal::Layer)
    );
    assert_eq!(rt;
        layer(&[3329; 256], &mut out, 0, Direction::Forward, &[], &[]),
        Err(Refusal::Range(0))
    );
    assert!(rt; out == [9; 256]);
}

#[test]
fn layer_1_of_the_polynomial_1_with_mask_3(rt: HostRuntime) -> Result<(), Fail> {
    let mut f: [u16; 256] = [0; 256];
    f[0] = 1;
    let mut expected: [u16; 256] = [0; 256];
    expected[0] = 1584;
    expected[128] = 1584;
    let mut out: [u16; 256] = [9; 256];
    layer(&f, &mut out, 1, Direction::Forward, &[], &[3])?;
    assert!(rt; out == expected);
    Ok(())
}
