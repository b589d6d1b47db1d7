ghost use Rattle.std.specs.Prelude.{◌≡◌, MatchResult};
ghost use Rattle.rings.specs.Refusals.{answer, ruling};
ghost use Rattle.transform.specs.Checks.{transform_checks, product_checks, layer_checks};
ghost use Rattle.transform.specs.Results.{Transformed, Inverted, Multiplied, Layered};

use crate::checks::{may_mask, may_multiply, may_transform, ml_kem_ring};
use algebra::Direction;
use engine::layer::{forward_layer, inverse_layer};
use engine::product::base_products;
use engine::whole::{forward_layers, inverse_layers};
use rings::Refusal;

// The transform and its inverse each have a body of their own: they run another function of the engine and promise another law, and a shared
// body that took the function as a closure would need a contract longer than both.
/// Writes the transform of f (FIPS 203, Algorithm 9) into out. A refusal leaves out as it was.
pub fn forward(f: &[u16], out: &mut [u16]) -> Result<(), Refusal>
    ensures answers { answer result ≡ ruling (transform_checks f.now out.old) }
    ensures writes { MatchResult result (λ _. Transformed f.now out.new) (λ _. out.new ≡ out.old) }
{
    may_transform(f, out)?;
    out.copy_from_slice(f);
    forward_layers(&ml_kem_ring(), out);
    Ok(())
}

/// Writes the inverse transform of f (FIPS 203, Algorithm 10) into out. A refusal leaves out as it was.
pub fn inverse(f: &[u16], out: &mut [u16]) -> Result<(), Refusal>
    ensures answers { answer result ≡ ruling (transform_checks f.now out.old) }
    ensures writes { MatchResult result (λ _. Inverted f.now out.new) (λ _. out.new ≡ out.old) }
{
    may_transform(f, out)?;
    out.copy_from_slice(f);
    inverse_layers(&ml_kem_ring(), out);
    Ok(())
}

/// Writes the product of the transforms f and g (FIPS 203, Algorithm 11) into out. A refusal leaves out as it was.
pub fn multiply(f: &[u16], g: &[u16], out: &mut [u16]) -> Result<(), Refusal>
    ensures answers { answer result ≡ ruling (product_checks f.now g.now out.old) }
    ensures writes { MatchResult result (λ _. Multiplied f.now g.now out.new) (λ _. out.new ≡ out.old) }
{
    may_multiply(f, g, out)?;
    base_products(&ml_kem_ring(), f, g, out);
    Ok(())
}

/// Writes one masked layer of f into out: `incoming` is the list that the layer before took (layer 1: empty),
/// `outgoing` this layer's own (layer 7: empty). A refusal leaves out as it was.
pub fn layer(
    f: &[u16],
    out: &mut [u16],
    number: u8,
    direction: Direction,
    incoming: &[u8],
    outgoing: &[u8],
) -> Result<(), Refusal>
    ensures answers { answer result ≡ ruling (layer_checks f.now out.old number incoming.now outgoing.now) }
    ensures writes { MatchResult result (λ _. Layered direction number incoming.now outgoing.now f.now out.new) (λ _. out.new ≡ out.old) }
{
    may_transform(f, out)?;
    let masked = may_mask(number, incoming, outgoing)?;
    out.copy_from_slice(f);
    let ring = ml_kem_ring();
    // The two directions have laws of their own, so the choice stands where a law is asked for.
    match direction {
        Direction::Forward => forward_layer(&ring, out, &masked),
        Direction::Inverse => inverse_layer(&ring, out, &masked),
    }
    Ok(())
}
