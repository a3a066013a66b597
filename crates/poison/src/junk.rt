//! A guess that leads astray.
ghost use Rattle.planning.specs.Guesses.{Anything};

use costs::{Bikes, Cents, CentsThenBikes, Pair};
use network::Network;
use planning::Guess;

/// Guesses more bikes than a leg can carry on some legs and none on others, and potentials at the limits of their numbers beside
/// small ones.
#[derive(Clone, Copy, PartialEq, Eq, Debug)]
pub struct Junk;

/// A potential that fits no network, by the station's number.
fn stray_potential(station: usize) -> CentsThenBikes {
    let (cents, bikes) = match station % 5 {
        0 => (i64::MAX, i64::MIN),
        1 => (i64::MIN, i64::MAX),
        2 => (-15, 1),
        3 => (15, -1),
        _ => (0, 0),
    };
    Pair {
        first: Cents::new(cents),
        second: Bikes::new(bikes),
    }
}

/// Anything may be written.
impl Guess for Junk {
    ghost guesses = { λ _. Anything };

    fn guess<N: Network>(
        &self,
        _net: &N,
        _standing: &[u16],
        amounts: &mut [u16],
        potentials: &mut [CentsThenBikes],
        _tables: &mut simplex::Tables<'_>,
    ) {
        for (number, amount) in amounts.iter_mut().enumerate() {
            *amount = if number % 3 == 0 { 60_000 } else { 0 };
        }
        for (station, potential) in potentials.iter_mut().enumerate() {
            *potential = stray_potential(station);
        }
    }
}
