// Kinds of cost: cents, bikes of difference, and pairs of any two kinds.
#![tactic(auto)]

pub mod cost;
pub mod count;
pub mod kinds;
pub mod pair;

pub use cost::Cost;
pub use count::Count;
pub use kinds::{Bike, Bikes, Cent, Cents, CentsThenBikes};
pub use pair::Pair;

#[cfg(test)]
mod tests {
    use super::*;

    // 2^40, up to which a sum of two costs is promised to be exact.
    const EDGE: i64 = 1_099_511_627_776;

    #[test]
    fn cents_add_up(rt: HostRuntime) {
        assert!(rt; Cents::new(20).sum(Cents::new(-30)).0 == -10);
        assert!(rt; Cents::new(EDGE).sum(Cents::zero()).0 == EDGE);
        assert!(rt; Cents::new(EDGE).sum(Cents::new(EDGE)).0 == 2_199_023_255_552);
        assert!(rt; Cents::new(-EDGE).sum(Cents::new(-EDGE)).0 == -2_199_023_255_552);
        assert!(rt; Cents::new(-EDGE).negative().0 == EDGE);
        assert!(rt; Cents::new(i64::MAX).sum(Cents::new(1)).0 == i64::MAX);
    }

    #[test]
    fn bikes_compare(rt: HostRuntime) {
        assert!(rt; Bikes::new(-1).at_most(Bikes::new(1)));
        assert!(rt; Bikes::new(1).at_most(Bikes::new(1)));
        assert!(rt; !Bikes::new(2).at_most(Bikes::new(1)));
        assert!(rt; !Bikes::new(1).below(Bikes::new(1)));
    }

    #[test]
    fn large_pairs_and_their_negatives_sum_to_zero(rt: HostRuntime) {
        let large = Pair {
            first: Cents::new(EDGE - 1),
            second: Bikes::new(-EDGE),
        };
        let sum = large.sum(large.negative());
        assert!(rt; sum.first.0 == 0 && sum.second.0 == 0);
        let twice = large.sum(large);
        assert!(rt; twice.first.0 == 2_199_023_255_550 && twice.second.0 == -2_199_023_255_552);
    }

    #[test]
    fn second_part_decides_between_equal_first_parts(rt: HostRuntime) {
        let near = Pair {
            first: Cents::new(120),
            second: Bikes::new(5),
        };
        let far = Pair {
            first: Cents::new(120),
            second: Bikes::new(9),
        };
        let dear = Pair {
            first: Cents::new(130),
            second: Bikes::new(0),
        };
        assert!(rt; near.at_most(far));
        assert!(rt; !far.at_most(near));
        assert!(rt; far.below(dear));
    }
}
