ghost use Rattle.std.specs.Prelude.{◌≡◌, Some, IfSome};
ghost use Rattle.sheet.specs.Kinds.{letter as letter_of, kind_of, placed};
ghost use Rattle.sheet.specs.Flaws.{fits};

use crate::limits::{COEFFICIENTS, MASKS, REDUNDANCY};
use crate::tags;

/// What a tag letter stands for.
#[derive(Clone, Copy)]
pub enum Kind {
    Redundant,
    Pair,
    Load,
    LoadHat,
    Forward,
    Inverse,
    Add,
    Subtract,
    Multiply,
    Refresh,
    Clear,
    Release,
    Strike,
}

impl Kind {
    // An Option and no TryFrom: a refusal names the tag's offset, which is not known here, so an error would say no more than None.
    /// The kind that a tag letter names.
    pub fn named(tag: u8) -> Option<Kind>
        ensures kind { result ≡ kind_of tag }
        ensures marked { IfSome result (λ k. letter_of k ≡ tag) }
    {
        match tag {
            tags::REDUNDANT => Some(Kind::Redundant),
            tags::PAIR => Some(Kind::Pair),
            tags::LOAD => Some(Kind::Load),
            tags::LOAD_HAT => Some(Kind::LoadHat),
            tags::FORWARD => Some(Kind::Forward),
            tags::INVERSE => Some(Kind::Inverse),
            tags::ADD => Some(Kind::Add),
            tags::SUBTRACT => Some(Kind::Subtract),
            tags::MULTIPLY => Some(Kind::Multiply),
            tags::REFRESH => Some(Kind::Refresh),
            tags::CLEAR => Some(Kind::Clear),
            tags::RELEASE => Some(Kind::Release),
            tags::STRIKE => Some(Kind::Strike),
            _ => None,
        }
    }

    /// Whether it may stand at an offset: one that opens a ring first, and only there.
    pub fn may_stand(self, at: u16) -> bool
        ensures { result ≡ placed self at }
    {
        match self {
            Kind::Redundant | Kind::Pair => at == 0,
            _ => at > 0,
        }
    }

    /// Whether its content may have a length.
    pub fn takes(self, n: usize) -> bool
        ensures { result ≡ fits (Some self) n }
    {
        let load = 1 + 2 + COEFFICIENTS + REDUNDANCY;
        let lengths = match self {
            Kind::Redundant | Kind::Add | Kind::Subtract | Kind::Multiply => 3..=3,
            Kind::Pair => 2..=2,
            Kind::Load | Kind::LoadHat => load..=load,
            Kind::Forward | Kind::Inverse => 1..=1 + MASKS,
            Kind::Refresh => 1 + REDUNDANCY..=1 + REDUNDANCY,
            Kind::Clear | Kind::Release => 1..=1,
            Kind::Strike => 6..=6,
        };
        lengths.contains(&n)
    }
}
