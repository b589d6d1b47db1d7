use guarded::{Pair, Redundant};
use rings::{Plain, Refusal};

#[test]
fn plain_rings_have_one_of_three_moduli(rt: HostRuntime) {
    assert!(rt; Plain::approve(3329).is_ok());
    assert!(rt; Plain::approve(7681).is_ok());
    assert!(rt; Plain::approve(12289).is_ok());
    assert_eq!(rt; Plain::approve(0).err(), Some(Refusal::Modulus));
    assert_eq!(rt; Plain::approve(3328).err(), Some(Refusal::Modulus));
    assert_eq!(rt; Plain::approve(10753).err(), Some(Refusal::Modulus));
}

#[test]
fn redundancy_is_odd_and_keeps_the_modulus_below_two_to_the_32(rt: HostRuntime) {
    assert!(rt; Redundant::approve(7681, 1).is_ok());
    assert!(rt; Redundant::approve(7681, 167).is_ok());
    assert_eq!(rt;
        Redundant::approve(7681, 169).err(),
        Some(Refusal::Redundancy)
    );
    assert_eq!(rt;
        Redundant::approve(7681, 168).err(),
        Some(Refusal::Redundancy)
    );
    assert_eq!(rt;
        Redundant::approve(7681, 0).err(),
        Some(Refusal::Redundancy)
    );
    assert!(rt; Redundant::approve(12289, 103).is_ok());
    assert_eq!(rt;
        Redundant::approve(12289, 105).err(),
        Some(Refusal::Redundancy)
    );
}

#[test]
fn check_moduli_are_7681_and_12289(rt: HostRuntime) {
    assert_eq!(rt; Redundant::approve(3329, 0).err(), Some(Refusal::Modulus));
    assert!(rt; Pair::approve(7681).is_ok());
    assert!(rt; Pair::approve(12289).is_ok());
    assert_eq!(rt; Pair::approve(3329).err(), Some(Refusal::Modulus));
}
