// What is guessed of the best plan.
ghost use Rattle.std.specs.Prelude.{◌≡◌, ℕ, List};
ghost use Rattle.costs.specs.Kinds.{CentsThenBikes as Potential};
ghost use Rattle.network.specs.Nets.{Net};
ghost use Rattle.planning.specs.Guesses.{Anything, NothingGuessed, Zeros};
ghost use Rattle.simplex.specs.Tables.{SameTables as SameSimplex};

use costs::CentsThenBikes;
use network::Network;

/// Guesses the best plan. A plan is made of any guess, so that a bad one costs time only: `guesses` says what may be written,
/// by the network, the standing amounts, and the amounts and potentials as they are afterwards.
pub trait Guess {
    ghost guesses: { Self → Net → List ℕ → List ℕ → List Potential → Type 0 };

    /// Writes guessed amounts, one for each leg, and potentials, one for each station; it finds zeros in both. It may work in
    /// the tables of the simplex, whatever they hold.
    fn guess<N: Network>(
        &self,
        net: &N,
        standing: &[u16],
        amounts: &mut [u16],
        potentials: &mut [CentsThenBikes],
        tables: &mut simplex::Tables<'_>,
    )
        ensures guessed { Zeros (N.Network.meaning net.now) amounts.old potentials.old
            → guesses self.now (N.Network.meaning net.now) standing.now amounts.new potentials.new }
        ensures stay { SameSimplex tables.old tables.new };
}

/// Guesses nothing: both stay zeros. The plan to begin with keeps the standing amounts of the legs without charge as far as
/// their capacities in force go, and sends no bike over any other leg (`no_guess_begins_with_the_first_plan`).
#[derive(Clone, Copy, PartialEq, Eq, Debug)]
pub struct NoGuess;

impl Guess for NoGuess {
    ghost guesses = { λ _. NothingGuessed };

    fn guess<N: Network>(
        &self,
        _net: &N,
        _standing: &[u16],
        _amounts: &mut [u16],
        _potentials: &mut [CentsThenBikes],
        _tables: &mut simplex::Tables<'_>,
    ) {}
}

/// Guesses by the network simplex, with so many pivots at most.
#[derive(Clone, Copy, PartialEq, Eq, Debug)]
pub struct NetworkSimplex {
    pub pivots: u32,
}

impl Default for NetworkSimplex {
    /// With 100,000 pivots: more than any network was seen to take.
    fn default() -> Self
        ensures { result.pivots ≡ 100000 }
    {
        NetworkSimplex { pivots: 100_000 }
    }
}

/// Anything may be written.
impl Guess for NetworkSimplex {
    ghost guesses = { λ _. Anything };

    fn guess<N: Network>(
        &self,
        net: &N,
        standing: &[u16],
        amounts: &mut [u16],
        potentials: &mut [CentsThenBikes],
        tables: &mut simplex::Tables<'_>,
    ) {
        simplex::guess(net, standing, self.pivots, amounts, potentials, tables);
    }
}
