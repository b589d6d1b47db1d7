ghost use Rattle.std.specs.Prelude.{◌≡◌, ℕ, ◌+◌, ◌*◌, ◌<◌, length};
ghost use Rattle.algebra.specs.Congruence.{Same};
ghost use Rattle.algebra.specs.Polynomials.{coefficient, Polynomial, polynomial_product};
ghost use Rattle.transform.specs.Results.{inverse_of};
ghost use Rattle.decrypt.specs.Decryption.{Exactly, Proper, Decrypted};

use std::array;
use transform::{forward, inverse, multiply};

// The product of u and s modulo X^256 + 1, from u and the transform of s; none where one of them is no polynomial.
fn product(u: &[u16], s: &[u16]) -> Option<[u16; 256]>
    ensures { Exactly result (Polynomial 3328 u.now × Polynomial 3328 s.now) (λ p. p ≡ polynomial_product 3328 u.now (inverse_of s.now)) }
{
    let mut transformed = [0u16; 256];
    let mut slots = [0u16; 256];
    let mut result = [0u16; 256];
    forward(u, &mut transformed).ok()?;
    multiply(&transformed, s, &mut slots).ok()?;
    inverse(&slots, &mut result).ok()?;
    Some(result)
}

// A copy of v; none where v is no polynomial.
fn polynomial(v: &[u16]) -> Option<[u16; 256]>
    ensures { Exactly result (Polynomial 3328 v.now) (λ w. w ≡ v.now) }
{
    let Ok(w) = <[u16; 256]>::try_from(v) else {
        return None;
    };
    if w.iter().all(|x| *x < 3329) {
        Some(w)
    } else {
        None
    }
}

// The difference a - b modulo 3329.
fn difference(a: u16, b: u16) -> u16
    requires { (a < 3329) × (b < 3329) }
    ensures below { result < 3329 }
    ensures restores { Same 3328 (result + b) a }
{
    if a < b { a + (3329 - b) } else { a - b }
}

// w - p, coefficient by coefficient.
fn subtract(w: &[u16; 256], p: &[u16; 256]) -> [u16; 256]
    requires { (Polynomial 3328 w.now) × (Polynomial 3328 p.now) }
    ensures below { Polynomial 3328 result }
    ensures restores { (j : ℕ) → j < 256 → Same 3328 (coefficient result j + coefficient p.now j) (coefficient w.now j) }
{
    array::from_fn(|k| difference(w[k], p[k]))
}

// `decryption::Rows` doesn't take the place of the rank and the rows: this answers for any rank and any lengths, and tests them.
/// v minus the sum of u[i] * s[i], of `rank` polynomials u and as many transformed polynomials s, each row one after the other; none
/// where the rows are not so long or a coefficient is above 3328.
pub fn decrypt(rank: u8, u: &[u16], s: &[u16], v: &[u16]) -> Option<[u16; 256]>
    ensures { Exactly result (Proper rank u.now s.now v.now) (λ w. Decrypted rank u.now s.now v.now w) }
{
    let count = rank as usize;
    if u.len() != 256 * count || s.len() != 256 * count {
        return None;
    }
    let mut w = polynomial(v)?;
    for (u_i, s_i) in u.chunks_exact(256).zip(s.chunks_exact(256)) {
        w = subtract(&w, &product(u_i, s_i)?);
    }
    Some(w)
}
