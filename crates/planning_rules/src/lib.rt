//! The rules of a planning: what it refuses before it searches, and what it answers.
#![tactic(auto)]

ghost use Rattle.planning_rules.specs.Checks.{Checks, planning_fault};
ghost use Rattle.planning_rules.specs.Theorems.{LowestSays, PassedSay};

mod judging;
pub mod lengths;

pub use lengths::Lengths;
use network::Network;
use records::Refusal;

/// The refusal that a planning deserves before it searches: of those that apply the one with the lowest number, at the
/// lowest leg or station.
pub fn check<N: Network>(net: &N, lengths: Lengths) -> Result<(), Refusal>
    ensures checks { Checks result (planning_fault (N.Network.meaning net.now) lengths) }
{
    if judging::is_too_short(net, lengths) {
        return Err(Refusal::SliceTooShort);
    }
    if let Some(leg) = judging::lowest_senseless(net) {
        return Err(Refusal::SenselessLeg { leg });
    }
    if let Some(station) = judging::lowest_too_large(net) {
        return Err(Refusal::BalanceTooLarge { station });
    }
    if judging::is_uneven(net) {
        return Err(Refusal::UnevenBalances);
    }
    Ok(())
}

/// The lowest number that passes a test passes it, and no lower one does.
pub fn lowest_is_the_lowest()
    ensures { LowestSays }
{}

/// A planning without fault has slices and tables that are long enough, legs that make sense, and balances within the
/// limits that sum to 0.
pub fn passed_checks_say()
    ensures { PassedSay }
{}
