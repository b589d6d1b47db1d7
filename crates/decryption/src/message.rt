ghost use Rattle.std.specs.Prelude.{◌≡◌, ℕ, ◌+◌, ◌*◌, ◌<◌, length, slice_index};
ghost use Rattle.decryption.specs.Message.{bit_of, byte_at};

use std::array;

// The bit that a coefficient stands for.
fn bit(x: u16) -> u8
    ensures value { result ≡ bit_of x }
    ensures small { result < 2 }
{
    if 833 <= x && x <= 2496 { 1 } else { 0 }
}

// The byte that eight coefficients stand for. Written out as the definition is: a fold over the bits would be no shorter.
fn byte(w: &[u16; 256], k: usize) -> u8
    requires { k + 7 < 256 }
    ensures { result ≡ byte_at w.now k }
{
    let low = bit(w[k]) + 2 * bit(w[k + 1]) + 4 * bit(w[k + 2]) + 8 * bit(w[k + 3]);
    low + 16 * bit(w[k + 4]) + 32 * bit(w[k + 5]) + 64 * bit(w[k + 6]) + 128 * bit(w[k + 7])
}

/// The message of 32 bytes that the 256 coefficients stand for.
pub fn message(w: &[u16; 256]) -> [u8; 32]
    ensures { (n : ℕ) → n < 32 → slice_index result n ≡ byte_at w.now (8 * n) }
{
    array::from_fn(|n| byte(w, 8 * n))
}
