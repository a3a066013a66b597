// Worked runs of calls on small networks.
#![tactic(auto)]

ghost use Rattle.run_examples.specs.WorkedRuns.{WorkedRuns};

// What the rules of a board allow as answers from call to call, and that they allow nothing else.
pub fn worked_runs()
    ensures { WorkedRuns }
{}
