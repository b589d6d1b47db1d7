use sheet::{Field, Fields, Placed, coefficient, read_field};
use std::test::Fail;

// Opens the redundant ring of 7681 and 1, releases register 0, clears register 9.
const SMALL: &[u8; 14] = b"P\x00\x03\x1E\x01\x01R\x00\x01\x00C\x00\x01\x09";

#[test]
fn a_small_sheet_field_by_field(rt: HostRuntime) {
    assert!(rt;
        matches!(
            read_field(SMALL, 0),
            Ok((Field::Redundant { p: 7681, t: 1 }, 6))
        )
    );
    assert!(rt;
        matches!(
            read_field(SMALL, 6),
            Ok((Field::Release { register: 0 }, 10))
        )
    );
    assert!(rt;
        matches!(
            read_field(SMALL, 10),
            Ok((Field::Clear { register: 9 }, 14))
        )
    );
}

#[test]
fn a_small_sheet_in_turn(rt: HostRuntime) -> Result<(), Fail> {
    let mut fields = Fields::new(SMALL)?;
    assert!(rt;
        matches!(
            fields.next(),
            Some(Ok(Placed {
                at: 0,
                field: Field::Redundant { p: 7681, t: 1 }
            }))
        )
    );
    assert!(rt;
        matches!(
            fields.next(),
            Some(Ok(Placed {
                at: 6,
                field: Field::Release { register: 0 }
            }))
        )
    );
    assert!(rt;
        matches!(
            fields.next(),
            Some(Ok(Placed {
                at: 10,
                field: Field::Clear { register: 9 }
            }))
        )
    );
    assert!(rt; matches!(fields.next(), None));
    Ok(())
}

#[test]
fn a_load_borrows_its_bytes(rt: HostRuntime) -> Result<(), Fail> {
    let mut sheet = [7; 779];
    sheet[0] = b'Q';
    sheet[1] = 0;
    sheet[2] = 2;
    sheet[5] = b'H';
    sheet[6] = 3;
    sheet[7] = 3;
    sheet[8] = 5;
    sheet[11] = 1;
    sheet[12] = 2;
    sheet[521] = 12;
    sheet[522] = 255;
    sheet[778] = 9;
    let Ok((Field::LoadHat(load), next)) = read_field(&sheet, 5) else {
        return Err(Fail::new("no transform is read"));
    };
    assert_eq!(rt; load.register, 5);
    assert_eq!(rt; load.c, 0x0707);
    assert_eq!(rt; load.coefficients.len(), 512);
    assert_eq!(rt; coefficient(load.coefficients, 0), Some(0x0102));
    assert_eq!(rt; coefficient(load.coefficients, 255), Some(0x0CFF));
    assert_eq!(rt; load.bytes.len(), 256);
    assert_eq!(rt; load.bytes[0], 7);
    assert_eq!(rt; load.bytes[255], 9);
    assert_eq!(rt; next, 779);
    Ok(())
}
