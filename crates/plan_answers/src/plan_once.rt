// What is printed for a text, by planning once.
ghost use Rattle.std.specs.Prelude.{IfOk, string_bytes};
ghost use Rattle.text_rules.specs.Reading.{reading};
ghost use Rattle.answers.specs.Answered.{whole_room, PrintsRead, Prints};
ghost use Rattle.plan_answers.specs.Printed.{PrintsWhole, PrintsStated};

use crate::network_answer;
use answers::{NetworkAnswer, answer_by};
use network::Network;
use std::alloc::{AllocError, Global};

// The best plan is printed, from a standing plan that carries nothing. A struct to each way to answer, as `Canonical` is.
pub struct PlanOnce;

impl NetworkAnswer for PlanOnce {
    ghost prints = { PrintsWhole };

    fn answer<N: Network>(heap: Global, net: &N) -> Result<String, AllocError> {
        network_answer(heap, net)
    }
}

// What is printed for a text: the best plan on the network that it states, or the refusal of the reading or of the planning.
pub fn answer_text(heap: Global, text: &[u8]) -> Result<String, AllocError>
    ensures bytes { IfOk result (λ s. PrintsRead PrintsStated (reading whole_room text.now) (string_bytes s)) }
    ensures prints { IfOk result (λ s. Prints PrintsStated text.now (string_bytes s)) }
{
    answer_by::<PlanOnce>(heap, text)
}
