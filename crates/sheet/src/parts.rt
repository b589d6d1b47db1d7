ghost use Rattle.std.specs.Prelude.{◌≡◌, ◌+◌, ◌≤◌, length};

use crate::bytes::two;
use crate::limits::COEFFICIENTS;

/// What a register is loaded with: 512 bytes of coefficients, 256 redundancy bytes.
#[derive(Clone, Copy)]
pub struct Load<'a> {
    pub register: u8,
    pub c: u16,
    pub coefficients: &'a [u8],
    pub bytes: &'a [u8],
}

impl<'a> Load<'a> {
    ghost use Rattle.sheet.specs.Reads.{Loaded};

    /// The load that a content spells.
    pub(crate) fn read(content: &'a [u8]) -> Load<'a>
        requires { length content.now ≡ 771 }
        ensures { Loaded content.now 0 result.register result.c result.coefficients.now result.bytes.now }
    {
        Load {
            register: content[0],
            c: two(content, 1),
            coefficients: &content[3..3 + COEFFICIENTS],
            bytes: &content[3 + COEFFICIENTS..],
        }
    }
}

/// A register, and 0 to 128 masks for a layer of it.
#[derive(Clone, Copy)]
pub struct Layer<'a> {
    pub register: u8,
    pub masks: &'a [u8],
}

impl<'a> Layer<'a> {
    ghost use Rattle.sheet.specs.Reads.{Masked};

    /// The layer that a content spells.
    pub(crate) fn read(content: &'a [u8]) -> Layer<'a>
        requires some { 1 ≤ length content.now }
        requires few { length content.now ≤ 129 }
        ensures width { 1 + length result.masks.now ≡ length content.now }
        ensures masked { Masked content.now 0 result.register result.masks.now }
    {
        Layer {
            register: content[0],
            masks: &content[1..],
        }
    }
}

/// The registers of a sum, difference or product: d takes that of a and b.
#[derive(Clone, Copy)]
pub struct Operands {
    pub d: u8,
    pub a: u8,
    pub b: u8,
}

impl Operands {
    ghost use Rattle.sheet.specs.Reads.{Three};

    /// The registers that a content spells.
    pub(crate) fn read(content: &[u8]) -> Operands
        requires { length content.now ≡ 3 }
        ensures { Three content.now 0 result.d result.a result.b }
    {
        Operands {
            d: content[0],
            a: content[1],
            b: content[2],
        }
    }
}
