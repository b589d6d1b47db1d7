ghost use Rattle.std.specs.Prelude.{◌≡◌, MatchResult};
ghost use Rattle.std.proofs.Math.Option.{none, some};
ghost use Rattle.sheet.specs.Flaws.{refused_whole};
ghost use Rattle.sheet.specs.Tiles.{Next};

use crate::field::Placed;
use crate::limits::SHEET;
use crate::read::read_field;
use rings::Refusal;

/// A reader of a sheet's fields, one after the other from its start.
#[derive(Drop)]
pub struct Fields<'a> {
    sheet: &'a [u8],
    at: u16,
}

impl<'a> Fields<'a> {
    /// At the start of a sheet, which must not be too long and not be empty.
    pub fn new(sheet: &'a [u8]) -> Result<Fields<'a>, Refusal>
        ensures { MatchResult result (λ f. (refused_whole sheet.now ≡ none) × (f.sheet.now ≡ sheet.now) × (f.at ≡ 0)) (λ e. refused_whole sheet.now ≡ some e) }
    {
        if sheet.len() > SHEET {
            return Err(Refusal::Long);
        }
        if sheet.is_empty() {
            return Err(Refusal::Cut(0));
        }
        Ok(Fields { sheet, at: 0 })
    }

    // No Iterator: at a refusal the reader stays, so as an iterator it has no end, and a `while let` over one without an end is not proved.
    /// The next field, or why it is refused; at a refusal the reader stays. None at the sheet's end.
    pub fn next(&mut self) -> Option<Result<Placed<'a>, Refusal>>
        ensures sheet { self.new.sheet ≡ self.old.sheet }
        ensures step { Next self.old.sheet.now self.old.at result self.new.at }
    {
        let at = self.at;
        if at as usize == self.sheet.len() {
            return None;
        }
        match read_field(self.sheet, at) {
            Ok((field, next)) => {
                self.at = next;
                Some(Ok(Placed { at, field }))
            }
            Err(refusal) => Some(Err(refusal)),
        }
    }
}
