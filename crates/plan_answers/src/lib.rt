// What `vanplan` answers to a network text: the bytes that it prints.
#![tactic(auto)]

ghost use Rattle.std.specs.Prelude.{IfOk, string_bytes};
ghost use Rattle.planning_rules.specs.Checks.{planning_fault};
ghost use Rattle.planning.specs.Tables.{lengths_of};
ghost use Rattle.plan_answers.specs.Printed.{PrintsNet, PrintsWhole};

mod answer_lines;
mod plan_once;

pub use answer_lines::plan_text;
pub use answers::refusal_text;
use network::Network;
pub use plan_once::{PlanOnce, answer_text};
use planning::Tables;
use records::{MOST_LEGS, MOST_STATIONS};
use std::alloc::{AllocError, Global};
use workspace::Workspace;

// What is printed for a network, by planning in these slices and tables.
fn answer_within<N: Network>(
    heap: Global,
    net: &N,
    prices: &mut [i64],
    cut: &mut [usize],
    tables: &mut Tables<'_>,
) -> Result<String, AllocError>
    ensures { IfOk result (λ s. PrintsNet (N.Network.meaning net.now) (planning_fault (N.Network.meaning net.now) (lengths_of prices.old cut.old tables.old)) (string_bytes s)) }
{
    match planning::plan(net, &[], prices, cut, tables) {
        Ok((cents, _)) => plan_text(heap, net, cents, tables.draft.amounts),
        Err(refusal) => refusal_text(heap, refusal),
    }
}

// What is printed for a network: the best plan from a standing plan that carries nothing, or the refusal.
pub fn network_answer<N: Network>(heap: Global, net: &N) -> Result<String, AllocError>
    ensures { IfOk result (λ s. PrintsWhole (N.Network.meaning net.now) (string_bytes s)) }
{
    let mut prices = vec![in heap; 0; MOST_STATIONS]?;
    let mut cut = vec![in heap; 0; MOST_STATIONS]?;
    let mut workspace = Workspace::new(heap, MOST_STATIONS, MOST_LEGS)?;
    let mut tables = workspace.lend();
    answer_within(
        heap,
        net,
        prices.as_mut_slice(),
        cut.as_mut_slice(),
        &mut tables,
    )
}
