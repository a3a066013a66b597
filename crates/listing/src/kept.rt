// A list that is kept between its makings, in memory of its own.
ghost use Rattle.std.specs.Prelude.{◌≡◌, []};
ghost use Rattle.listing.specs.Listings.{Renews};

use arrayvec::ArrayVec;
use network::Belongs;
use records::Refusal;
use std::marker::Model;

// A list of at most N numbers. It holds no marks: they mean nothing between two calls, and lists of several kinds share them.
#[derive(Drop)]
pub struct Kept<const N: usize> {
    numbers: ArrayVec<usize, N>,
}

// It is seen as the list.
impl<const N: usize> Model for Kept<N> {
    ghost use Rattle.std.specs.Prelude.{List, ℕ};

    ghost Value = { List ℕ };

    ghost view = { λ k. k.numbers.items };
}

impl<const N: usize> Kept<N> {
    // A list with nobody on it.
    pub fn new() -> Kept<N>
        ensures { result ≡ [] }
    {
        Kept {
            numbers: ArrayVec::new(),
        }
    }

    // Makes the list of those among the numbers below `count` that belong, and writes it out: those on it
    // that still belong, in their order, then the others by rising number. The marks are to work in.
    // Answers how long it is. Refused where a slice is shorter than the count, or the list cannot be so long.
    pub fn list<B: Belongs>(
        &mut self,
        who: &B,
        count: usize,
        marks: &mut [bool],
        out: &mut [usize],
    ) -> Result<usize, Refusal>
        ensures { Renews (B.Belongs.belongs who.now) count N result self.old self.new marks.old marks.new out.old out.new }
    {
        let long = crate::write(who, count, self.numbers.as_slice(), N, marks, out)?;
        // no list is longer than the count, so this one has room
        self.numbers.clear();
        self.numbers
            .try_extend_from_slice(&out[..long])
            .map_err(|_| Refusal::SliceTooShort)?;
        Ok(long)
    }
}
