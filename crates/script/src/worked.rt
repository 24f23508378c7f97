// Worked examples, by the definitions alone.
ghost use Rattle.script.specs.Worked.{Worked};

// The worked histories and the worked script: what they answer is forced.
#[tactic(auto, using(crate::proofs::Examples::worked))]
pub fn worked_examples_are_forced()
    ensures { Worked }
{}
