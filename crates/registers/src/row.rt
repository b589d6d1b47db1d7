ghost use Rattle.std.specs.Prelude.{◌≡◌, length};
ghost use Rattle.histories.specs.Calls.{part};

use histories::Index;

/// The words of register r.
pub(crate) fn row<W>(words: &[W], r: Index) -> &[W]
    requires { length words.now ≡ 2048 }
    ensures words { result.now ≡ part words.now r.number }
    ensures size { length result.now ≡ 256 }
{
    let base = 256 * r.number as usize;
    &words[base..base + 256]
}
