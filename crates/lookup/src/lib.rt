// The lookup of a register by itself, for comparing and measuring it.
#![tactic(auto)]

ghost use Rattle.std.specs.Prelude.{◌≡◌};
ghost use Rattle.lookup.specs.Asked.{turn_asked};

use layout::xlen::Xlen;

// No register.
// Kept: a number for none: the C interface.
const NONE: u64 = 0xFFFF_FFFF_FFFF_FFFF;

// The turn of the register with this number at XLEN 32 or 64, or all-ones where that width has none, or for another width.
#[unsafe(no_mangle)]
pub extern "C" fn nacl_lookup(xlen: u64, number: u64) -> u64
    ensures { result ≡ turn_asked xlen number }
{
    let Ok(x) = Xlen::try_from(xlen) else {
        return NONE;
    };
    match csr::of_number(x, number) {
        Some(t) => t as u64,
        None => NONE,
    }
}
