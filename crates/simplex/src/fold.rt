//! Costs in one number: cents, and bikes of difference between equal cents.
use costs::{Bikes, Cents, CentsThenBikes, Pair};

/// What a cent counts for: more than any two plans differ in bikes.
pub(crate) const UNIT: i64 = 4_194_304;

/// What a leg's charge counts for.
#[inline(always)]
pub(crate) fn folded(charge: u32) -> i64 {
    i64::from(charge).wrapping_mul(UNIT)
}

/// The cents that are nearest to a folded number, and the bikes that remain.
#[inline(always)]
fn split(number: i64) -> CentsThenBikes {
    let cents = number.wrapping_add(UNIT / 2) >> 22;
    Pair {
        first: Cents::new(cents),
        second: Bikes::new(number.wrapping_sub(cents.wrapping_mul(UNIT))),
    }
}

/// Splits folded potentials.
pub(crate) fn split_all(folded: &[i64], potentials: &mut [CentsThenBikes]) {
    for (potential, number) in potentials.iter_mut().zip(folded) {
        *potential = split(*number);
    }
}
