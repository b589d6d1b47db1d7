use algebra::Direction;
use rings::Refusal;
use transform::{forward, inverse, layer, multiply};

#[test]
fn slices_are_held_to_256_in_their_order(rt: HostRuntime) {
    let whole: [u16; 256] = [4000; 256];
    let short: [u16; 255] = [4000; 255];
    let mut out: [u16; 256] = [9; 256];
    let mut long: [u16; 257] = [9; 257];
    assert_eq!(rt; forward(&short, &mut long), Err(Refusal::Length(0)));
    assert_eq!(rt; forward(&whole, &mut long), Err(Refusal::Length(1)));
    assert_eq!(rt; inverse(&short, &mut out), Err(Refusal::Length(0)));
    assert_eq!(rt; inverse(&whole, &mut long), Err(Refusal::Length(1)));
    assert_eq!(rt;
        multiply(&short, &short, &mut long),
        Err(Refusal::Length(0))
    );
    assert_eq!(rt;
        multiply(&whole, &short, &mut long),
        Err(Refusal::Length(1))
    );
    assert_eq!(rt;
        multiply(&whole, &whole, &mut long),
        Err(Refusal::Length(2))
    );
    assert_eq!(rt; out[0], 9);
    assert_eq!(rt; long[256], 9);
}

#[test]
fn lengths_come_before_all_else(rt: HostRuntime) {
    let mut out: [u16; 3] = [9; 3];
    assert_eq!(rt;
        layer(&[], &mut out, 0, Direction::Forward, &[], &[]),
        Err(Refusal::Length(0))
    );
    assert_eq!(rt;
        layer(&[4000; 256], &mut out, 9, Direction::Inverse, &[1], &[]),
        Err(Refusal::Length(1))
    );
    assert_eq!(rt; out[2], 9);
}
