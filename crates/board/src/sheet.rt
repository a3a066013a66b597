// The memory in which a run hands out what its calls find.
ghost use Rattle.std.specs.Prelude.{◌≡◌};
ghost use Rattle.board.specs.Running.{given, lent_by};

use crate::entries::Entries;
use planning::Tables;

// Slices for prices, for cuts and lists, and for the amounts of new plans.
#[derive(Drop)]
pub struct Sheet<'a> {
    pub prices: &'a mut [i64],
    pub numbers: &'a mut [usize],
    pub amounts: &'a mut [u16],
}

impl Sheet<'_> {
    // How much memory is lent, with the working tables.
    pub(crate) fn entries(&self, tables: &Tables<'_>) -> Entries
        ensures { result ≡ given (lent_by self.now) tables.now }
    {
        let lengths = tables.lengths(self.prices, self.numbers);
        Entries::of_lengths(lengths, self.amounts.len())
    }
}
