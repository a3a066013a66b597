// Where a search starts.
ghost use Rattle.std.specs.Prelude.{true, false, slice_index_or};

use network::Belongs;

/// At every station.
#[derive(Clone, Copy, PartialEq, Eq, Debug)]
pub struct Everywhere;

impl Belongs for Everywhere {
    ghost belongs = { λ _ _. true };

    fn belongs(&self, _station: usize) -> bool {
        true
    }
}

/// At the marked stations; a mark that is missing counts as not set.
#[derive(Clone, Copy, PartialEq, Eq, Debug)]
pub struct Marked<'a>(pub &'a [bool]);

impl<'a> Belongs for Marked<'a> {
    ghost belongs = { λ s v. slice_index_or s.0.now v false };

    fn belongs(&self, station: usize) -> bool {
        self.0.get(station).is_some_and(|mark| *mark)
    }
}
