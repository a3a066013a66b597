// Whole numbers of one kind as a kind of cost.
ghost use Rattle.std.specs.Prelude.{◌≡◌, ℕ, ◌+◌, ◌^◌, ◌≤◌, Some, ℤ, ◌+ℤ◌, neg_ℤ, unsigned_abs};
ghost use Rattle.std.specs.Int.{saturate_to_bits};
ghost use Rattle.theory.specs.Groups.{whole};
ghost use Rattle.costs.specs.Kinds.{count_text};

use crate::cost::Cost;
use std::fmt;
use std::marker::PhantomData;
use theory::Grouped;

/// How many of the kind `K`, below zero, too. Numbers of different kinds are of different types.
#[derive(Clone, Copy, PartialEq, Eq, Debug)]
pub struct Count<K>(pub i64, PhantomData<K>);

impl<K> Count<K> {
    /// That many of the kind.
    pub const fn new(number: i64) -> Count<K>
        ensures { result.0 ≡ number }
    {
        Count(number, PhantomData)
    }
}

/// The number alone.
impl<K> fmt::Display for Count<K> {
    ghost output = { λ c. Some (count_text c) };

    fn fmt<W: fmt::Write>(&self, f: &mut fmt::Formatter<W>) -> fmt::Result {
        write!(f, "{}", self.0)
    }
}

/// The worth is the integer itself.
impl<K> Grouped for Count<K> {
    ghost Member = { ℤ };

    ghost group = { whole };

    ghost worth = { λ c. c.0 };
}

impl<K: Copy> Cost for Count<K> {
    ghost size = { λ c. unsigned_abs c.0 };

    fn zero() -> Count<K> {
        Count::new(0)
    }

    /// Beyond the range of the number it stops at the nearer limit.
    fn sum(self, other: Count<K>) -> Count<K>
        ensures exact { unsigned_abs self.0 ≤ 2 ^ 40 → unsigned_abs other.0 ≤ 2 ^ 40
            → (result.0 ≡ self.0 +ℤ other.0)
            × (unsigned_abs result.0 ≤ unsigned_abs self.0 + unsigned_abs other.0) }
        ensures limited { result.0 ≡ saturate_to_bits 63 (self.0 +ℤ other.0) }
    {
        Count::new(self.0.saturating_add(other.0))
    }

    /// Beyond the range of the number it stops at the nearer limit.
    fn negative(self) -> Count<K>
        ensures exact { unsigned_abs self.0 ≤ 2 ^ 40
            → (result.0 ≡ neg_ℤ self.0) × (unsigned_abs result.0 ≡ unsigned_abs self.0) }
        ensures limited { result.0 ≡ saturate_to_bits 63 (neg_ℤ self.0) }
    {
        Count::new(self.0.saturating_neg())
    }

    fn at_most(self, other: Count<K>) -> bool {
        self.0 <= other.0
    }
}
