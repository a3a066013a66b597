// Pairs of two kinds of cost.
ghost use Rattle.std.specs.Prelude.{◌≡◌, max};
ghost use Rattle.theory.specs.Groups.{paired};
ghost use Rattle.costs.specs.Kinds.{spaced};

use crate::cost::Cost;
use std::fmt;
use theory::Grouped;

/// A cost of two parts. The second part decides only between equal first parts.
#[derive(Clone, Copy, PartialEq, Eq, Debug)]
pub struct Pair<A, B> {
    pub first: A,
    pub second: B,
}

/// Both parts, with a space between.
impl<A: fmt::Display, B: fmt::Display> fmt::Display for Pair<A, B> {
    ghost output = { λ p. spaced (A.Display.output p.first) (B.Display.output p.second) };

    fn fmt<W: fmt::Write>(&self, f: &mut fmt::Formatter<W>) -> fmt::Result {
        let Pair { first, second } = self;
        write!(f, "{first} {second}")
    }
}

impl<A: Grouped, B: Grouped> Grouped for Pair<A, B> {
    ghost Member = { A.Grouped.Member × B.Grouped.Member };

    ghost group = { paired A.Grouped.group B.Grouped.group };

    ghost worth = { λ p. (A.Grouped.worth p.first, B.Grouped.worth p.second) };
}

impl<A: Cost, B: Cost> Cost for Pair<A, B> {
    ghost size = { λ p. max (A.Cost.size p.first) (B.Cost.size p.second) };

    fn zero() -> Pair<A, B> {
        Pair {
            first: A::zero(),
            second: B::zero(),
        }
    }

    fn sum(self, other: Pair<A, B>) -> Pair<A, B> {
        Pair {
            first: self.first.sum(other.first),
            second: self.second.sum(other.second),
        }
    }

    fn negative(self) -> Pair<A, B> {
        Pair {
            first: self.first.negative(),
            second: self.second.negative(),
        }
    }

    fn at_most(self, other: Pair<A, B>) -> bool {
        self.first.below(other.first)
            || (self.first.at_most(other.first) && self.second.at_most(other.second))
    }
}
