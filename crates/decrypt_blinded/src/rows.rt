ghost use Rattle.std.specs.Prelude.{◌≡◌, ◌+◌, ◌*◌, length};

use decryption::Rows;

/// The rows and the random bytes that blind them: 612 for each product, 96 for the inverse and 258 for v.
#[derive(Clone, Copy)]
pub struct BlindedRows<'a> {
    pub rows: Rows<'a>,
    pub random: &'a [u8],
    ghost random_size: { length random.now ≡ 612 * rows.rank.number + 354 },
}
