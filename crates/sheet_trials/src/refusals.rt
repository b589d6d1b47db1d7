use rings::Refusal;
use sheet::read_field;

fn refusal(sheet: &[u8], at: u16) -> Option<Refusal> {
    read_field(sheet, at).err()
}

#[test]
fn a_field_cut_at_every_byte(rt: HostRuntime) {
    let sheet = [b'P', 0, 3, 0x1E, 1, 1];
    assert_eq!(rt; refusal(&sheet, 0), None);
    assert_eq!(rt; refusal(&sheet[..5], 0), Some(Refusal::Cut(0)));
    assert_eq!(rt; refusal(&sheet[..4], 0), Some(Refusal::Cut(0)));
    assert_eq!(rt; refusal(&sheet[..3], 0), Some(Refusal::Cut(0)));
    assert_eq!(rt; refusal(&sheet[..2], 0), Some(Refusal::Cut(0)));
    assert_eq!(rt; refusal(&sheet[..1], 0), Some(Refusal::Cut(0)));
    assert_eq!(rt; refusal(&sheet[..0], 0), Some(Refusal::Cut(0)));
    assert_eq!(rt; refusal(&sheet, 6), Some(Refusal::Cut(6)));
    assert_eq!(rt; refusal(&sheet, 65535), Some(Refusal::Cut(65535)));
}

#[test]
fn tags_unknown_or_misplaced(rt: HostRuntime) {
    assert_eq!(rt; refusal(&[b'Z', 0, 0], 0), Some(Refusal::Tag(0)));
    assert_eq!(rt; refusal(&[b'p', 0, 3, 30, 1, 1], 0), Some(Refusal::Tag(0)));
    assert_eq!(rt; refusal(&[b'C', 0, 1, 0], 0), Some(Refusal::Tag(0)));
    let sheet = [b'Q', 0, 2, 30, 1, b'P', 0, 3, 30, 1, 1];
    assert_eq!(rt; refusal(&sheet, 5), Some(Refusal::Tag(5)));
}

#[test]
fn lengths_are_the_tags(rt: HostRuntime) {
    assert_eq!(rt; refusal(&[b'Q', 0, 3, 30, 1, 1], 0), Some(Refusal::Size(0)));
    assert_eq!(rt; refusal(&[9, b'F', 0, 0], 1), Some(Refusal::Size(1)));
    assert_eq!(rt; refusal(&[9, b'F', 0, 1, 7], 1), None);
    let mut masked = [0; 134];
    masked[1] = b'I';
    masked[3] = 129;
    assert_eq!(rt; refusal(&masked, 1), None);
    masked[3] = 130;
    assert_eq!(rt; refusal(&masked, 1), Some(Refusal::Size(1)));
}

#[test]
fn the_lower_number_comes_first(rt: HostRuntime) {
    assert_eq!(rt; refusal(&[b'Z', 0, 1], 0), Some(Refusal::Cut(0)));
    assert_eq!(rt; refusal(&[b'Q', 0, 2, 30], 0), Some(Refusal::Cut(0)));
    assert_eq!(rt; refusal(&[b'C', 0, 0], 0), Some(Refusal::Tag(0)));
}
