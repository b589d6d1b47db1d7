ghost use Rattle.std.specs.Prelude.{◌≤◌, length};
ghost use Rattle.sheet.specs.Kinds.{least, most};

use crate::kind::Kind;

pub mod reading;

/// A sound header, with the content that it announces.
#[derive(Clone, Copy)]
pub(crate) struct Header<'a> {
    pub kind: Kind,
    pub content: &'a [u8],
    ghost enough: { least kind ≤ length content.now },
    ghost limit: { length content.now ≤ most kind },
}
