// Numbers drawn in a fixed order from a seed, by a linear congruence: one of a few lines, so that what works out the expected lines in
// another language draws the same.
ghost use Rattle.std.specs.Prelude.{◌≡◌, ◌<◌, max};
ghost use Rattle.samples.specs.Drawing.{advanced, drawn};

#[derive(Drop)]
pub struct Generator {
    state: u64,
}

impl Generator {
    // Begins with a seed.
    pub fn new(seed: u64) -> Generator
        ensures { result.state ≡ seed }
    {
        Generator { state: seed }
    }

    // The next number below a bound; a bound of 0 is taken as 1. Cast: no `From` narrows, and what is left of 65,536 fits.
    pub fn below(&mut self, bound: u16) -> u16
        ensures advances { self.new.state ≡ advanced self.old.state }
        ensures draws { result ≡ drawn self.new.state (max bound 1) }
        ensures below { result < max bound 1 }
    {
        self.state = self
            .state
            .wrapping_mul(6_364_136_223_846_793_005)
            .wrapping_add(1_442_695_040_888_963_407);
        ((self.state >> 33) % 65_536) as u16 % bound.max(1)
    }
}
