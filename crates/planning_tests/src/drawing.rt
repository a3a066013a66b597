// Legs drawn at random, and bikes that go over them.
use records::{Leg, Station};
use samples::Generator;
use samples::worked::leg;

// A leg between different ones of at least two stations. Its capacity and its charge stay below their bounds. Three numbers and no struct:
// one caller has them in a recipe with others, the other draws one and states two.
pub(crate) fn draw_leg(
    generator: &mut Generator,
    stations: u16,
    capacities: u16,
    charges: u16,
) -> Leg {
    let start = generator.below(stations.max(2));
    let turn = generator.below(stations.max(2) - 1);
    let end = if turn < start {
        turn
    } else {
        turn.saturating_add(1)
    };
    let capacity = generator.below(capacities);
    let charge = generator.below(charges);
    leg(start, end, capacity, u32::from(charge))
}

// Adds bikes to a balance.
pub(crate) fn add(stations: &mut [Station], station: u16, bikes: i32) {
    if let Some(station) = stations.get_mut(usize::from(station)) {
        station.balance = station.balance.saturating_add(bikes);
    }
}
