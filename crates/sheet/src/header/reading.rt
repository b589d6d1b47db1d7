ghost use Rattle.std.specs.Prelude.{◌≡◌, ◌+◌, length, IfOk, MatchResult};
ghost use Rattle.std.proofs.Math.Option.{some};
ghost use Rattle.sheet.specs.Bytes.{Part};
ghost use Rattle.sheet.specs.Flaws.{flaw_at};
ghost use Rattle.sheet.specs.Reads.{Headed};

use crate::bytes::two;
use crate::header::Header;
use crate::kind::Kind;
use crate::limits::{HEADER, SHEET};
use rings::Refusal;

impl<'a> Header<'a> {
    /// The header of the field at an offset, or the field's first flaw.
    pub(crate) fn read(sheet: &'a [u8], at: u16) -> Result<Header<'a>, Refusal>
        ensures headed { MatchResult result (λ h. Headed sheet.now at h.kind (length h.content.now)) (λ e. flaw_at sheet.now at ≡ some e) }
        ensures content { IfOk result (λ h. Part sheet.now (at + 3) (length h.content.now) h.content.now) }
    {
        if sheet.len() > SHEET {
            return Err(Refusal::Long);
        }
        let from = at as usize + HEADER;
        if from > sheet.len() {
            return Err(Refusal::Cut(at));
        }
        let n = two(sheet, at as usize + 1) as usize;
        if from + n > sheet.len() {
            return Err(Refusal::Cut(at));
        }
        let Some(kind) = Kind::named(sheet[at as usize]) else {
            return Err(Refusal::Tag(at));
        };
        if !kind.may_stand(at) {
            return Err(Refusal::Tag(at));
        }
        if !kind.takes(n) {
            return Err(Refusal::Size(at));
        }
        Ok(Header {
            kind,
            content: &sheet[from..from + n],
        })
    }
}
