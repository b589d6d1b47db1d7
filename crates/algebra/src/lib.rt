#![tactic(auto)]

ghost use Rattle.algebra.specs.Prime.{Prime};
ghost use Rattle.algebra.specs.Theorems.{Transforms, OddModuli, RemaindersPass, MlKem, MlDsa, MaskLists, Products, Ones};

/// The way of a layer: towards the transform, or back.
#[derive(Clone, Copy, PartialEq, Eq, Debug)]
pub enum Direction {
    Forward,
    Inverse,
}

// Each function below does nothing: its contract is a theorem, which the check has to prove.

/// For every modulus, root and number of layers up to 8: the transforms, their products and their masked layers.
pub fn transforms_stand() -> u8
    ensures { Transforms }
{
    0
}

/// The same for every odd modulus, which has an inverse of 2^L.
pub fn odd_moduli_stand() -> u8
    ensures { OddModuli }
{
    0
}

/// Modulo a product of two numbers, the transform leaves by each of them the transform modulo it.
pub fn remainders_pass() -> u8
    ensures { RemaindersPass }
{
    0
}

/// The same at the numbers of FIPS 203.
pub fn ml_kem_stands() -> u8
    ensures { MlKem }
{
    0
}

/// The same at the numbers of FIPS 204.
pub fn ml_dsa_stands() -> u8
    ensures { MlDsa }
{
    0
}

/// Which positions carry which byte of a mask list.
pub fn mask_lists_stand() -> u8
    ensures { MaskLists }
{
    0
}

/// The ring of polynomials modulo X^n - c.
pub fn products_stand() -> u8
    ensures { Products }
{
    0
}

/// The polynomial of all ones: its square, and that a product with it determines the other factor.
pub fn ones_stand() -> u8
    ensures { Ones }
{
    0
}

/// The check moduli are prime.
pub fn primes_stand() -> u8
    ensures { Prime 7681 × Prime 12289 }
{
    0
}
