// What holds of the exported functions together.
ghost use Rattle.abi.specs.Claims.{BoundaryClaims};

// The claims about the boundary hold. There is nothing to run: that this contract is proved is the point.
pub fn hold()
    ensures { BoundaryClaims }
{}
