ghost use Rattle.std.specs.Prelude.{◌≡◌, ◌≤◌, [], ◌∷◌, length, ◌==◌, position};
ghost use Rattle.std.specs.Ordering.{is_ge};
ghost use Rattle.rings.specs.declared.refusal.Refusal.TheVariants as refuse;
ghost use Rattle.rings.specs.Refusals.{answer, ruling, complaint, first, test as checked, scan, flaw, below};

use crate::refusal::Refusal;

/// A slice, at its position among the call's slices, that has to have so many elements.
pub fn sized(n: usize, wanted: usize, position: u8) -> Result<(), Refusal>
    ensures answers { answer result ≡ ruling (checked (n == wanted) (refuse.Length position) ∷ []) }
    ensures complains { complaint result ≡ first (checked (n == wanted) (refuse.Length position) ∷ []) }
{
    if n == wanted {
        Ok(())
    } else {
        Err(Refusal::Length(position))
    }
}

// The first item that is not below m.
fn first_high<T: Ord>(xs: &[T], m: &T) -> Option<usize>
    ensures { result ≡ position (λ x. is_ge (T.Ord.cmp x m.now)) xs.now }
{
    xs.iter().position(|x| x.cmp(m).is_ge())
}

/// Coefficients that have to be below 3329.
pub fn in_range(xs: &[u16]) -> Result<(), Refusal>
    requires { length xs.now ≤ 256 }
    ensures answers { answer result ≡ ruling (scan (flaw (below 3329) xs.now) refuse.Range ∷ []) }
    ensures complains { complaint result ≡ first (scan (flaw (below 3329) xs.now) refuse.Range ∷ []) }
{
    match first_high(xs, &3329) {
        Some(i) => Err(Refusal::Range(i as u8)),
        None => Ok(()),
    }
}

/// Redundancy bytes that have to be below t.
pub fn digits(t: u8, bytes: &[u8]) -> Result<(), Refusal>
    requires { length bytes.now ≤ 256 }
    ensures answers { answer result ≡ ruling (scan (flaw (below t) bytes.now) refuse.Digit ∷ []) }
    ensures complains { complaint result ≡ first (scan (flaw (below t) bytes.now) refuse.Digit ∷ []) }
{
    match first_high(bytes, &t) {
        Some(i) => Err(Refusal::Digit(i as u8)),
        None => Ok(()),
    }
}
