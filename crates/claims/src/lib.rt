// What holds of every call, every run of the stoppable form, every line change and every trap back. There is nothing to run here: the claims are in
// specs/Claims.antt, and a function's contract is the list of them, so that the gate proves them or fails.
#![tactic(auto)]

ghost use Rattle.claims.specs.Claims.{Claims};

// Every claim holds.
pub fn hold()
    ensures { Claims }
{}
