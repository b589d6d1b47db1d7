/// The most bytes of a sheet.
pub const SHEET: usize = 32768;

/// A tag and a length.
pub const HEADER: usize = 3;

/// The bytes of 256 coefficients.
pub const COEFFICIENTS: usize = 512;

/// The redundancy bytes of a register, one for each word.
pub const REDUNDANCY: usize = 256;

/// The most masks that a layer takes.
pub const MASKS: usize = 128;
