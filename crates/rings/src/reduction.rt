ghost use Rattle.std.specs.Prelude.{◌≡◌, ◌/◌, ◌%◌, ◌^◌, ◌<◌};

// Two widths, u32 over u64 and u64 over u128. One function for both would need a trait of widths, with a law for its product, shift and
// narrowing and an impl for each, for two uses: no plainer than these four lines twice.

/// The remainder of x by m, without a division: r is the whole part of 2^32 / m.
pub fn reduce(x: u32, m: u32, r: u32) -> u32
    requires some { 0 < m }
    requires reciprocal { r ≡ (2 ^ 32) / m }
    ensures { result ≡ x % m }
{
    let quotient = ((x as u64 * r as u64) >> 32) as u32;
    let rest = x - quotient * m;
    if rest < m { rest } else { rest - m }
}

/// The same of 64 bits: r is the whole part of 2^64 / m.
pub fn reduce_wide(x: u64, m: u64, r: u64) -> u32
    requires some { 0 < m }
    requires small { m < 2 ^ 32 }
    requires reciprocal { r ≡ (2 ^ 64) / m }
    ensures { result ≡ x % m }
{
    let quotient = ((x as u128 * r as u128) >> 64) as u64;
    let rest = x - quotient * m;
    if rest < m {
        rest as u32
    } else {
        (rest - m) as u32
    }
}
