//! The arcs that legs are split into.
ghost use Rattle.std.specs.Prelude.{◌≡◌};

/// A part of a leg, in the direction in which bikes may go along it now: an arc that is full is turned round. Of an arc of the basis
/// tree the direction says nothing.
#[derive(Clone, Copy, Default)]
pub struct Arc {
    /// What a bike along it costs, folded; negated, where it is turned round.
    pub cost: i64,
    pub leg: u16,
    pub capacity: u16,
    /// The station where it begins. No network has so many stations that a byte is too small.
    pub tail: u8,
    /// The station where it ends.
    pub head: u8,
    pub is_turned: bool,
}

/// An arc by its number, with its cost or its reduced cost.
#[derive(Clone, Copy, Default)]
pub struct Offer {
    pub cost: i64,
    pub arc: u16,
}

impl Arc {
    /// The arc in the other direction.
    #[inline(always)]
    pub(crate) fn turned(self) -> Arc
        ensures tail { result.tail ≡ self.head }
        ensures head { result.head ≡ self.tail }
    {
        Arc {
            cost: self.cost.wrapping_neg(),
            leg: self.leg,
            capacity: self.capacity,
            tail: self.head,
            head: self.tail,
            is_turned: !self.is_turned,
        }
    }

    /// Its reduced cost; 0 in the tree, and where an end has no potential.
    #[inline(always)]
    pub(crate) fn reduced(self, potentials: &[i64]) -> i64 {
        let Some(tail) = potentials.get(usize::from(self.tail)) else {
            return 0;
        };
        let Some(head) = potentials.get(usize::from(self.head)) else {
            return 0;
        };
        self.cost.wrapping_add(*tail).wrapping_sub(*head)
    }
}

impl Offer {
    /// The cheaper of two, the first if they are equal.
    #[inline(always)]
    pub(crate) fn or(self, other: Offer) -> Offer {
        if other.cost < self.cost { other } else { self }
    }
}
