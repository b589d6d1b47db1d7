// Names for bytes: a letter is matched as a pattern, in which an enum's `Kind::Pair as u8` may not stand.
/// The letters of the fields.
pub const REDUNDANT: u8 = b'P';

pub const PAIR: u8 = b'Q';

pub const LOAD: u8 = b'L';

pub const LOAD_HAT: u8 = b'H';

pub const FORWARD: u8 = b'F';

pub const INVERSE: u8 = b'I';

pub const ADD: u8 = b'A';

pub const SUBTRACT: u8 = b'S';

pub const MULTIPLY: u8 = b'M';

pub const REFRESH: u8 = b'N';

pub const CLEAR: u8 = b'C';

pub const RELEASE: u8 = b'R';

pub const STRIKE: u8 = b'X';
