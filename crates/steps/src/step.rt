// A residual step of a plan.
ghost use Rattle.std.specs.Prelude.{Some};
ghost use Rattle.steps.specs.Texts.{step_text};

use plans::Direction;
use std::fmt;

/// Which way over which leg, by its number.
#[derive(Clone, Copy, PartialEq, Eq, Debug)]
pub struct Step {
    pub direction: Direction,
    pub leg: usize,
}

/// `forth over LEG` or `back over LEG`.
impl fmt::Display for Step {
    ghost output = { λ step. Some (step_text step) };

    fn fmt<W: fmt::Write>(&self, f: &mut fmt::Formatter<W>) -> fmt::Result {
        let way = match self.direction {
            Direction::Forth => "forth",
            Direction::Back => "back",
        };
        write!(f, "{way} over {}", self.leg)
    }
}
