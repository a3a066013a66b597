// Whether what a planning answered and left goes by the rules, and whether two plannings of the same came to the same.
use crate::guesses::Guessed;
use crate::lent::Lent;
use crate::rules;
use network::Network;
use poison::UNTOUCHED;
use records::Refusal;

// A planning that was made: on which network, from which standing plan, what it left, and what it answered.
#[derive(Drop)]
pub struct Planned<'a, N> {
    pub net: &'a N,
    pub standing: &'a [u16],
    pub lent: &'a Lent,
    pub answer: Result<(u64, u64), Refusal>,
}

impl<'a, N: Network> Planned<'a, N> {
    // Plans on a network, from a standing plan, by a guess or by the planner's own.
    pub(crate) fn new(
        net: &'a N,
        standing: &'a [u16],
        guess: Option<Guessed>,
        lent: &'a mut Lent,
    ) -> Planned<'a, N> {
        let answer = lent.plan(net, standing, guess);
        Planned {
            net,
            standing,
            lent,
            answer,
        }
    }

    // Whether the planning, which was accepted with a weight, left a plan that obeys, weighs that, and has the prices that were left.
    pub(crate) fn is_sound(&self, weight: (u64, u64)) -> bool {
        let plan = self.lent.planned(self.net.legs());
        rules::obeys(self.net, plan)
            && rules::weigh(self.net, self.standing, plan) == weight
            && rules::are_prices(self.net, plan, self.lent.prices.as_slice())
    }

    // Whether the planning, which was refused, named a cut.
    pub(crate) fn names_cut(&self, refusal: Refusal) -> bool {
        match refusal {
            Refusal::NoPlanObeys { cut } => self
                .lent
                .cut
                .get(..cut)
                .is_some_and(|stations| rules::is_cut(self.net, stations)),
            _ => false,
        }
    }

    // Whether the entries of the cut from a place on are as they were.
    fn leaves_cut_from(&self, place: usize) -> bool {
        self.lent
            .cut
            .iter()
            .skip(place)
            .all(|station| *station == usize::from(UNTOUCHED))
    }

    // Whether the planning came to all that the rules fix, as another one did that was lent as much for the same network and the same
    // standing plan: the weight and the prices, or the refusal. Which plan has that weight is free, and which cut is named.
    pub(crate) fn comes_to(&self, other: &Planned<'_, N>) -> bool {
        let same = match (self.answer, other.answer) {
            (Ok(weight), Ok(wanted)) => {
                weight == wanted && self.is_sound(weight) && self.leaves_cut_from(0)
            }
            (Err(refusal), Err(wanted)) => self.is_refused_as(refusal, wanted),
            _ => false,
        };
        same && self.lent.prices.as_slice() == other.lent.prices.as_slice()
    }

    // Whether the planning, which was refused, was refused as another one was.
    fn is_refused_as(&self, refusal: Refusal, wanted: Refusal) -> bool {
        match (refusal, wanted) {
            (Refusal::NoPlanObeys { cut }, Refusal::NoPlanObeys { .. }) => {
                self.names_cut(refusal) && self.leaves_cut_from(cut)
            }
            _ => refusal == wanted && self.leaves_cut_from(0),
        }
    }

    // The prices of all stations together. No `sum`, which asks for a bound on what it adds.
    pub(crate) fn prices(&self) -> i64 {
        self.lent
            .prices
            .iter()
            .take(self.net.stations())
            .fold(0i64, |sum, price| sum.saturating_add(*price))
    }
}
