ghost use Rattle.std.specs.Prelude.{◌≡◌, ◌+◌, ◌*◌, ◌<◌, ◌≤◌};
ghost use Rattle.engine.specs.Pairs.{own_mask, wide_mask};

use crate::masks::Masks;

/// A group of a layer: its index, half its positions, and the exponent of its factor.
#[derive(Clone, Copy)]
pub(crate) struct Group {
    pub(crate) index: usize,
    pub(crate) len: usize,
    pub(crate) z: u8,
    ghost inside: { index * (2 * len) + 2 * len ≤ 256 },
}

/// The masks of a butterfly: its own, and those of its two words, which lie by the butterflies of the neighbour layer, whose groups are twice
/// as large.
#[derive(Clone, Copy)]
pub(crate) struct PairMasks {
    pub(crate) own: u8,
    pub(crate) low: u8,
    pub(crate) high: u8,
}

impl Group {
    /// The place of its first word.
    pub(crate) fn base(self) -> usize
        ensures { result ≡ self.index * (2 * self.len) }
    {
        self.index * (2 * self.len)
    }

    /// The masks of its butterfly `offset`: by the list `own` its own, by the list `wide` those of its two words.
    pub(crate) fn masks(self, offset: usize, own: &Masks, wide: &Masks) -> PairMasks
        requires { offset < self.len }
        ensures own { result.own ≡ own_mask own.now.bytes.now self.len self.index offset }
        ensures low { result.low ≡ wide_mask wide.now.bytes.now self.len self.index offset }
        ensures high { result.high ≡ wide_mask wide.now.bytes.now self.len self.index (offset + self.len) }
    {
        let first = 2 * self.len * (self.index / 2);
        PairMasks {
            own: own.at(self.len * self.index + offset),
            low: wide.at(first + offset),
            high: wide.at(first + (offset + self.len)),
        }
    }
}
