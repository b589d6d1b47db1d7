ghost use Rattle.std.specs.Prelude.{◌≡◌, ◌<◌};
ghost use Rattle.algebra.specs.Layers.{bitrev, forward_len, forward_groups, forward_exponent, inverse_len, inverse_groups, inverse_exponent};

use crate::group::Group;
use crate::masked::Layer;

const REVERSED: [u8; 128] = [
    0, 64, 32, 96, 16, 80, 48, 112, 8, 72, 40, 104, 24, 88, 56, 120, 4, 68, 36, 100, 20, 84, 52,
    116, 12, 76, 44, 108, 28, 92, 60, 124, 2, 66, 34, 98, 18, 82, 50, 114, 10, 74, 42, 106, 26, 90,
    58, 122, 6, 70, 38, 102, 22, 86, 54, 118, 14, 78, 46, 110, 30, 94, 62, 126, 1, 65, 33, 97, 17,
    81, 49, 113, 9, 73, 41, 105, 25, 89, 57, 121, 5, 69, 37, 101, 21, 85, 53, 117, 13, 77, 45, 109,
    29, 93, 61, 125, 3, 67, 35, 99, 19, 83, 51, 115, 11, 75, 43, 107, 27, 91, 59, 123, 7, 71, 39,
    103, 23, 87, 55, 119, 15, 79, 47, 111, 31, 95, 63, 127,
];

/// The seven bits of x, reversed.
pub fn reversed(x: u8) -> u8
    requires { x < 128 }
    ensures { result ≡ bitrev 7 x }
{
    REVERSED[x as usize]
}

// A layer of the transform and one back have their halves and counts in turn: each is one shift. By the mirrored layer 8 - n the two directions
// would share them, for a method and two facts more.
impl Layer {
    // Half the positions of a group of this forward layer.
    fn forward_half(self) -> usize
        ensures { result ≡ forward_len self.number }
    {
        1 << (8 - self.number)
    }

    /// The number of groups of this forward layer.
    pub(crate) fn forward_count(self) -> usize
        ensures { result ≡ forward_groups self.number }
    {
        1 << (self.number - 1)
    }

    /// A group of this forward layer.
    pub(crate) fn forward_group_at(self, index: usize) -> Group
        requires { index < forward_groups self.number }
        ensures index { result.index ≡ index }
        ensures half { result.len ≡ forward_len self.number }
        ensures factor { result.z ≡ forward_exponent 7 self.number index }
    {
        let count = self.forward_count();
        Group {
            index,
            len: self.forward_half(),
            z: reversed((count + index) as u8),
        }
    }

    // Half the positions of a group of this inverse layer.
    fn inverse_half(self) -> usize
        ensures { result ≡ inverse_len 7 self.number }
    {
        1 << self.number
    }

    /// The number of groups of this inverse layer.
    pub(crate) fn inverse_count(self) -> usize
        ensures { result ≡ inverse_groups 7 self.number }
    {
        1 << (7 - self.number)
    }

    /// A group of this inverse layer.
    pub(crate) fn inverse_group_at(self, index: usize) -> Group
        requires { index < inverse_groups 7 self.number }
        ensures index { result.index ≡ index }
        ensures half { result.len ≡ inverse_len 7 self.number }
        ensures factor { result.z ≡ inverse_exponent 7 self.number index }
    {
        let count = self.inverse_count();
        Group {
            index,
            len: self.inverse_half(),
            z: reversed((2 * count - 1 - index) as u8),
        }
    }
}
