ghost use Rattle.std.specs.Prelude.{◌≡◌, ◌*◌, ◌/◌, ◌%◌, ◌^◌, ◌<◌, true};
ghost use Rattle.rings.specs.Moduli.{is_plain};

pub mod arithmetic;

/// Numbers modulo 3329, 7681 or 12289, each held by itself. Made by `approve` alone.
#[derive(Drop)]
pub struct Plain {
    modulus: u16,
    // the whole part of 2^32 / modulus; not a `Divisor`, since this is the one use of the narrow `reduce`
    reciprocal: u32,
    // the inverse of 128
    inverse: u16,
    ghost known: { is_plain modulus ≡ true },
    ghost divides: { reciprocal ≡ (2 ^ 32) / modulus },
    ghost inverts: { (128 * inverse) % modulus ≡ 1 },
    ghost low: { inverse < modulus },
}
