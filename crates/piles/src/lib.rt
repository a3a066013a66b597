// Layers that are chosen while a program runs: a van limit, a yard or none over any network, as one type.
#![tactic(auto)]

ghost use Rattle.std.specs.Prelude.{◌≡◌};
ghost use Rattle.piles.specs.Piles.{layered, pile_keeps, pile_kept, pile_meaning, pile_within};

use network::{Network, Office};
use records::{Leg, Mark, Refusal};
use van_limit::VanLimit;
use yard::Yard;

// A layer to put over a network.
#[derive(Clone, Copy, PartialEq, Eq, Debug)]
pub enum Layer {
    // a van limit of so many bikes
    Limit { bikes: u16 },
    // a yard whose legs have this charge
    Yard { cents: u32 },
}

// A network with a layer over it, or alone. A pile of piles has up to two layers, and so on.
#[derive(Drop)]
pub enum Pile<N> {
    Bare(N),
    Limited(VanLimit<N>),
    WithYard(Yard<N>),
}

impl<N: Network> Pile<N> {
    // The layer over the network, with its number at most its limit.
    pub fn new(below: N, layer: Option<Layer>) -> Pile<N>
        ensures { pile_meaning N.Network.meaning result ≡ layered layer (N.Network.meaning below) }
    {
        match layer {
            None => Pile::Bare(below),
            Some(Layer::Limit { bikes }) => Pile::Limited(VanLimit::new(below, bikes)),
            Some(Layer::Yard { cents }) => Pile::WithYard(Yard::new(below, cents)),
        }
    }
}

impl<N: Network> Network for Pile<N> {
    ghost meaning = { pile_meaning N.Network.meaning };

    ghost limits = { pile_within N.Network.meaning N.Network.limits };

    fn stations(&self) -> usize {
        match self {
            Pile::Bare(net) => net.stations(),
            Pile::Limited(net) => net.stations(),
            Pile::WithYard(net) => net.stations(),
        }
    }

    fn legs(&self) -> usize {
        match self {
            Pile::Bare(net) => net.legs(),
            Pile::Limited(net) => net.legs(),
            Pile::WithYard(net) => net.legs(),
        }
    }

    fn open_stations(&self) -> usize {
        match self {
            Pile::Bare(net) => net.open_stations(),
            Pile::Limited(net) => net.open_stations(),
            Pile::WithYard(net) => net.open_stations(),
        }
    }

    fn road_legs(&self) -> usize {
        match self {
            Pile::Bare(net) => net.road_legs(),
            Pile::Limited(net) => net.road_legs(),
            Pile::WithYard(net) => net.road_legs(),
        }
    }

    fn leg(&self, number: usize) -> Option<Leg> {
        match self {
            Pile::Bare(net) => net.leg(number),
            Pile::Limited(net) => net.leg(number),
            Pile::WithYard(net) => net.leg(number),
        }
    }

    fn balance(&self, station: usize) -> Option<i32> {
        match self {
            Pile::Bare(net) => net.balance(station),
            Pile::Limited(net) => net.balance(station),
            Pile::WithYard(net) => net.balance(station),
        }
    }
}

// The calls go to whichever network the pile is.
impl<N: Office> Office for Pile<N> {
    ghost kept = { pile_kept N.Office.kept };

    ghost keeps = { pile_keeps N.Office.keeps };

    fn report(&mut self, station: usize, balance: i32) -> Result<(), Refusal> {
        match self {
            Pile::Bare(net) => net.report(station, balance),
            Pile::Limited(net) => net.report(station, balance),
            Pile::WithYard(net) => net.report(station, balance),
        }
    }

    fn set_mark(&mut self, leg: usize, mark: Mark) -> Result<(), Refusal> {
        match self {
            Pile::Bare(net) => net.set_mark(leg, mark),
            Pile::Limited(net) => net.set_mark(leg, mark),
            Pile::WithYard(net) => net.set_mark(leg, mark),
        }
    }
}
