//! Which way a residual step goes over a leg.

/// From the leg's start to its end, with one bike more on it, or back, with one less.
#[derive(Clone, Copy, PartialEq, Eq, Debug)]
pub enum Direction {
    Forth,
    Back,
}
