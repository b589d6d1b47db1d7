ghost use Rattle.sheet.specs.Tiles.{Tiled, Covers, OneTiling};

use crate::fields::Fields;
use rings::Refusal;

/// How far the fields of a sheet go: how many it has from its start, and the refusal that ends them, if one does.
#[derive(Clone, Copy, PartialEq, Eq, Debug)]
pub struct Extent {
    pub fields: u16,
    pub refusal: Option<Refusal>,
}

/// How far the fields of a sheet go.
pub fn survey(sheet: &[u8]) -> Extent
    ensures tiled { Tiled sheet.now result.fields result.refusal }
    ensures covers { Covers sheet.now result.fields result.refusal }
    ensures one { OneTiling sheet.now }
{
    let mut reader = match Fields::new(sheet) {
        Ok(reader) => reader,
        Err(refusal) => {
            return Extent {
                fields: 0,
                refusal: Some(refusal),
            };
        }
    };
    let mut fields = 0;
    while let Some(step) = reader.next() {
        match step {
            Ok(_) => fields += 1,
            Err(refusal) => {
                return Extent {
                    fields,
                    refusal: Some(refusal),
                };
            }
        }
    }
    Extent {
        fields,
        refusal: None,
    }
}
