use rings::Refusal;
use sheet::{Extent, survey};
use std::test::Fail;

#[test]
fn a_sheet_of_three_fields(rt: HostRuntime) {
    let sheet = [b'P', 0, 3, 30, 1, 1, b'R', 0, 1, 0, b'C', 0, 1, 9];
    let Extent { fields, refusal } = survey(&sheet);
    assert_eq!(rt; fields, 3);
    assert_eq!(rt; refusal, None);
}

#[test]
fn the_first_refusal_ends_a_sheet(rt: HostRuntime) {
    let sheet = [b'Q', 0, 2, 30, 1, b'C', 0, 1, 9, b'P', 0, 3, 30, 1, 1];
    let Extent { fields, refusal } = survey(&sheet);
    assert_eq!(rt; fields, 2);
    assert_eq!(rt; refusal, Some(Refusal::Tag(9)));
    let Extent { fields, refusal } = survey(&[]);
    assert_eq!(rt; fields, 0);
    assert_eq!(rt; refusal, Some(Refusal::Cut(0)));
}

// A field of 5 bytes, one of 7 and 8189 of 4.
#[test]
fn a_sheet_of_32768_bytes(rt: HostRuntime) -> Result<(), Fail> {
    let mut sheet = [0; 32768];
    sheet[0] = b'Q';
    sheet[2] = 2;
    sheet[5] = b'F';
    sheet[7] = 4;
    for field in sheet[12..].chunks_exact_mut(4) {
        field.copy_from_slice(&[b'C', 0, 1, 0]);
    }
    let Extent { fields, refusal } = survey(&sheet);
    assert_eq!(rt; fields, 8191);
    assert_eq!(rt; refusal, None);
    Ok(())
}

#[test]
fn a_sheet_of_32769_bytes(rt: HostRuntime) {
    let sheet = [0; 32769];
    let Extent { fields, refusal } = survey(&sheet);
    assert_eq!(rt; fields, 0);
    assert_eq!(rt; refusal, Some(Refusal::Long));
    assert_eq!(rt; Refusal::Long.number(), 13);
    assert_eq!(rt; Refusal::Long.place(), 32768);
}
