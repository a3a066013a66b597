// Worked examples of planning on small networks.
#![tactic(auto)]

ghost use Rattle.examples.specs.Examples.{WorkedExamples};

// What the rules allow on each of the networks, and that they allow nothing else.
pub fn worked_examples()
    ensures { WorkedExamples }
{}
