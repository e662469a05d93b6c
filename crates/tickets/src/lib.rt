// 01's sample tickets T1 to T12. There is nothing to run here: the list is in specs/Samples.antt, and a function's contract is the claim about it,
// so that the gate proves it or fails. They stand apart from `claims` since T9 computes every register's turn on a whole page.
#![tactic(auto)]

ghost use Rattle.tickets.specs.Samples.{SamplesHold};

// Of every ticket what the definitions give is what 01 wants.
pub fn hold()
    ensures { SamplesHold }
{}
