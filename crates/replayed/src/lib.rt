// What holds of every recording's replay. There is nothing to run here: the claims are in specs/Claims.antt, and a function's contract is the list of
// them, so that the gate proves them or fails.
#![tactic(auto)]

ghost use Rattle.replayed.specs.Claims.{Claims};

// Every claim holds.
pub fn hold()
    ensures { Claims }
{}
