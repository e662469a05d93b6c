// The feature set.
ghost use Rattle.std.specs.Prelude.{◌≡◌};
ghost use Rattle.hart.specs.Features.{has_feature};

// Feature k is present.
pub fn has(features: u64, k: u64) -> bool
    ensures { result ≡ has_feature features k }
{
    (k < 64) && (features >> k) % 2 == 1
}
