// What every kind of cost has: a zero, a sum, a negative and an order.
ghost use Rattle.std.specs.Prelude.{◌≡◌, ℕ, ◌+◌, ◌^◌, ◌≤◌, ◌↔◌, IsTrue};

use theory::Grouped;

/// A kind of cost. A cost stands for its worth, a member of the ordered group of its kind. Its size
/// says how far its parts are from zero: where costs are within 2^40, their sum and their negatives
/// are exact. What a number does beyond that is in `Count`; of other kinds nothing is said there.
pub trait Cost: Grouped + Copy + Drop {
    ghost size: { Self → ℕ };

    /// The cost that leaves every cost as it is.
    fn zero() -> Self
        ensures worth { Self.worth result ≡ Self.group.zero }
        ensures size { size result ≡ 0 };

    /// Both costs together, exact where each of them is within 2^40.
    fn sum(self, other: Self) -> Self
        ensures exact { size self ≤ 2 ^ 40 → size other ≤ 2 ^ 40
            → (Self.worth result ≡ Self.group.add (Self.worth self) (Self.worth other))
            × (size result ≤ size self + size other) };

    /// What sums to zero with the cost.
    fn negative(self) -> Self
        ensures exact { size self ≤ 2 ^ 40
            → (Self.worth result ≡ Self.group.neg (Self.worth self)) × (size result ≡ size self) };

    /// Whether the cost is no more than the other.
    fn at_most(self, other: Self) -> bool
        ensures { IsTrue result ↔ Self.group.le (Self.worth self) (Self.worth other) };

    /// Whether the cost is less than the other.
    fn below(self, other: Self) -> bool
        ensures { IsTrue result ↔ ¬ Self.group.le (Self.worth other) (Self.worth self) }
    {
        !other.at_most(self)
    }
}
