ghost use Rattle.std.specs.Prelude.{◌≡◌, ℕ, ◌/◌, ◌^◌, ◌<◌, true, ◌||◌, length, ◌==◌, slice_index};
ghost use Rattle.algebra.specs.Masks.{is_list_length, suits, block};

/// A list of masks. Butterfly n carries the byte of its block; where the list is empty, no butterfly carries a mask.
#[derive(Clone, Copy)]
pub(crate) struct Masks<'a> {
    bytes: &'a [u8],
    // a block has 2^shift butterflies; kept beside the list, so that looking up a mask takes no division
    shift: u32,
    ghost width: { (0 < length bytes.now → 128 / length bytes.now ≡ 2 ^ shift) },
    ghost small: { shift < 8 },
}

/// Whether a list suits the masks after this many layers.
pub fn suit(layers: u8, list: &[u8]) -> bool
    ensures { result ≡ suits 7 layers list.now }
{
    if layers == 0 || layers == 7 {
        list.is_empty()
    } else {
        list.len() <= 128 && list.len().is_power_of_two()
    }
}

impl<'a> Masks<'a> {
    /// The masks of a list that is empty or has 1, 2, 4, 8, 16, 32, 64 or 128 bytes.
    pub(crate) fn new(bytes: &'a [u8]) -> Self
        requires { (length bytes.now == 0 || is_list_length (length bytes.now)) ≡ true }
        ensures { result.bytes.now ≡ bytes.now }
    {
        let shift = match bytes.len() {
            0 => 0,
            n => (128 / n).trailing_zeros(),
        };
        Masks { bytes, shift }
    }

    /// The mask that butterfly n carries.
    pub(crate) fn at(&self, n: usize) -> u8
        ensures { result ≡ slice_index self.now.bytes.now (block self.now.bytes.now n) }
    {
        self.bytes.get(n >> self.shift).copied().unwrap_or(0)
    }
}
