// The guesses that plannings begin with. What a planning comes to may not depend on them, except which plan and which cut it leaves.
ghost use Rattle.planning.specs.Guesses.{Anything};
ghost use Rattle.simplex.specs.Tables.{SameTables as SameSimplex};

use costs::CentsThenBikes;
use network::Network;
use planning::{Guess, NetworkSimplex, NoGuess};
use poison::Junk;

// A guess that is picked while the program runs.
#[derive(Clone, Copy)]
pub enum Guessed {
    Nothing,
    Junk,
    // the network simplex, stopped after so many pivots
    Simplex { pivots: u32 },
}

impl Guess for Guessed {
    ghost guesses = { λ _. Anything };

    fn guess<N: Network>(
        &self,
        net: &N,
        standing: &[u16],
        amounts: &mut [u16],
        potentials: &mut [CentsThenBikes],
        tables: &mut simplex::Tables<'_>,
    ) {
        match *self {
            Guessed::Nothing => NoGuess.guess(net, standing, amounts, potentials, tables),
            Guessed::Junk => Junk.guess(net, standing, amounts, potentials, tables),
            Guessed::Simplex { pivots } => {
                NetworkSimplex { pivots }.guess(net, standing, amounts, potentials, tables)
            }
        }
    }
}

// The guesses whose plannings are held against those by the planner's own guess.
pub const OTHERS: [(&str, Guessed); 7] = [
    ("no guess", Guessed::Nothing),
    ("junk", Guessed::Junk),
    (
        "the simplex without a pivot",
        Guessed::Simplex { pivots: 0 },
    ),
    ("the simplex after 1 pivot", Guessed::Simplex { pivots: 1 }),
    ("the simplex after 5 pivots", Guessed::Simplex { pivots: 5 }),
    (
        "the simplex after 50 pivots",
        Guessed::Simplex { pivots: 50 },
    ),
    (
        "the simplex after 200 pivots",
        Guessed::Simplex { pivots: 200 },
    ),
];
