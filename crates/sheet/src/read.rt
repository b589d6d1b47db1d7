ghost use Rattle.std.specs.Prelude.{◌≡◌, ◌+◌, length, IfOk, MatchResult};
ghost use Rattle.std.proofs.Math.Option.{none, some};
ghost use Rattle.sheet.specs.Bytes.{part};
ghost use Rattle.sheet.specs.Kinds.{letter};
ghost use Rattle.sheet.specs.Flaws.{flaw_at};
ghost use Rattle.sheet.specs.Reads.{mark, width, Content, Reads};
ghost use Rattle.sheet.specs.Written.{written, Heard};

use crate::bytes::{four, two};
use crate::field::Field;
use crate::header::Header;
use crate::kind::Kind;
use crate::limits::HEADER;
use crate::parts::{Layer, Load, Operands};
use rings::Refusal;

// The field that a header and its content spell.
fn field(header: Header<'_>) -> Field<'_>
    ensures tag { mark result ≡ letter header.entry.kind }
    ensures size { width result ≡ length header.entry.content.now }
    ensures content { Content header.entry.content.now 0 result }
{
    let content = header.content;
    match header.kind {
        Kind::Redundant => Field::Redundant {
            p: two(content, 0),
            t: content[2],
        },
        Kind::Pair => Field::Pair { p: two(content, 0) },
        Kind::Load => Field::Load(Load::read(content)),
        Kind::LoadHat => Field::LoadHat(Load::read(content)),
        Kind::Forward => Field::Forward(Layer::read(content)),
        Kind::Inverse => Field::Inverse(Layer::read(content)),
        Kind::Add => Field::Add(Operands::read(content)),
        Kind::Subtract => Field::Subtract(Operands::read(content)),
        Kind::Multiply => Field::Multiply(Operands::read(content)),
        Kind::Refresh => Field::Refresh {
            register: content[0],
            bytes: &content[1..],
        },
        Kind::Clear => Field::Clear {
            register: content[0],
        },
        Kind::Release => Field::Release {
            register: content[0],
        },
        Kind::Strike => Field::Strike {
            position: two(content, 0),
            word: four(content, 2),
        },
    }
}

/// The field at an offset of the sheet and the offset after it, or the field's first flaw.
pub fn read_field(sheet: &[u8], at: u16) -> Result<(Field<'_>, u16), Refusal>
    ensures field { MatchResult result (λ p. (flaw_at sheet.now at ≡ none) × Reads sheet.now at p.0 p.1) (λ e. flaw_at sheet.now at ≡ some e) }
    ensures written { IfOk result (λ p. part sheet.now at (3 + width p.0) ≡ written p.0) }
    ensures heard { Heard sheet.now at result }
{
    let header = Header::read(sheet, at)?;
    let next = at as usize + HEADER + header.content.len();
    Ok((field(header), next as u16))
}
