ghost use Rattle.std.specs.Prelude.{◌≡◌, IfOk};
ghost use Rattle.rings.specs.PlainRing.{plain_modulus};
ghost use Rattle.rings.specs.Refusals.{answer, ruling};
ghost use Rattle.transform.specs.Checks.{transform_checks, guarded_checks, product_checks, mask_checks};

use engine::masked::{Layer, MaskedLayer};
use engine::masks::suit;
use rings::checks::{in_range, sized};
use rings::{Plain, Refusal};

// Each call's checks stand one by one: they differ in which slices they name, and a loop over a list of lengths is no shorter.

/// What a transform checks: its two slices, then the coefficients.
pub(crate) fn may_transform(f: &[u16], out: &[u16]) -> Result<(), Refusal>
    ensures { answer result ≡ ruling (transform_checks f.now out.now) }
{
    sized(f.len(), 256, 0)?;
    sized(out.len(), 256, 1)?;
    in_range(f)
}

/// What a transform in a guarded ring checks: its three slices, then the coefficients.
pub(crate) fn may_transform_guarded(f: &[u16], words: usize, out: &[u16]) -> Result<(), Refusal>
    ensures { answer result ≡ ruling (guarded_checks f.now words out.now) }
{
    sized(f.len(), 256, 0)?;
    sized(words, 256, 1)?;
    sized(out.len(), 256, 2)?;
    in_range(f)
}

/// What a product checks: its three slices, then the coefficients of both factors.
pub(crate) fn may_multiply(f: &[u16], g: &[u16], out: &[u16]) -> Result<(), Refusal>
    ensures { answer result ≡ ruling (product_checks f.now g.now out.now) }
{
    sized(f.len(), 256, 0)?;
    sized(g.len(), 256, 1)?;
    sized(out.len(), 256, 2)?;
    in_range(f)?;
    in_range(g)
}

/// What a masked layer checks besides: its number, then its lists. They make the layer that the engine runs.
pub(crate) fn may_mask<'a>(
    number: u8,
    incoming: &'a [u8],
    outgoing: &'a [u8],
) -> Result<MaskedLayer<'a>, Refusal>
    ensures answers { answer result ≡ ruling (mask_checks number incoming.now outgoing.now) }
    ensures layer { IfOk result (λ masked. masked.layer.number ≡ number) }
    ensures before { IfOk result (λ masked. masked.before.now ≡ incoming.now) }
    ensures list { IfOk result (λ masked. masked.list.now ≡ outgoing.now) }
{
    let layer = Layer::try_from(number)?;
    if !suit(number - 1, incoming) || !suit(number, outgoing) {
        return Err(Refusal::Masks(0));
    }
    Ok(MaskedLayer {
        layer,
        before: incoming,
        list: outgoing,
    })
}

/// The plain ring modulo 3329, which approval grants.
pub(crate) fn ml_kem_ring() -> Plain
    ensures { plain_modulus result ≡ 3329 }
{
    Plain::approve(3329).unwrap()
}
