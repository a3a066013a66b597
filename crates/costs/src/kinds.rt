// The kinds of what is counted: cents, and bikes of difference.
use crate::count::Count;
use crate::pair::Pair;

/// A cent of what a plan costs, or a step of one.
#[derive(Clone, Copy, PartialEq, Eq, Debug)]
pub struct Cent;

/// A bike by which a plan is further from another, or by which a step changes that.
#[derive(Clone, Copy, PartialEq, Eq, Debug)]
pub struct Bike;

/// Numbers of cents.
pub type Cents = Count<Cent>;

/// Numbers of bikes of difference.
pub type Bikes = Count<Bike>;

/// What plans are compared by: cents, and bikes of difference between equal cents.
pub type CentsThenBikes = Pair<Cents, Bikes>;
