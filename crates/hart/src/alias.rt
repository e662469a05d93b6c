// hip, vsie and vsip on plain numbers: what they read, and what a write of one stores in the register behind it.
ghost use Rattle.std.specs.Prelude.{◌≡◌, ◌*◌, ◌/◌};
ghost use Rattle.std.specs.Int.Bits.{bit_and};
ghost use Rattle.hart.specs.Bits.{take_bits};
ghost use Rattle.hart.specs.Registers.{line_up, line_enabled, hip_of, delegated};

// Bits 1, 5, 9 are bits 2, 6, 10 of x where hideleg has that bit, else 0.
pub fn delegated_bits(hideleg: u64, x: u64) -> u64
    ensures { result ≡ delegated hideleg x }
{
    (x & hideleg & 0x444) / 2
}

// The bits of mask from v, the other bits from old.
pub fn take_bits(mask: u64, v: u64, old: u64) -> u64
    ensures { result ≡ take_bits mask v old }
{
    (old & !mask) | (v & mask)
}

// VGEIN is not 0 and that line is up.
fn line_up(hstatus: u64, lines: u64) -> bool
    ensures { result ≡ line_up hstatus lines }
{
    let vgein = hstatus / 0x1000 % 64;
    (vgein != 0) & ((lines >> vgein) % 2 == 1)
}

// A line is up that hgeie enables.
fn line_enabled(hgeie: u64, lines: u64) -> bool
    ensures { result ≡ line_enabled hgeie lines }
{
    lines & hgeie != 0
}

// hip: hvip, with bit 10 also for the line that VGEIN names, and bit 12 for the lines that hgeie enables.
pub fn hip(hstatus: u64, hgeie: u64, hvip: u64, lines: u64) -> u64
    ensures { result ≡ hip_of hstatus hgeie hvip lines }
{
    let vseip = if line_up(hstatus, lines) { 0x400 } else { 0 };
    let sgeip = if line_enabled(hgeie, lines) {
        0x1000
    } else {
        0
    };
    hvip | vseip | sgeip
}

// What a write of v to vsie or vsip leaves of `old` in the register behind it: each bit of `mask` that hideleg has takes the bit of v below it.
pub fn written_behind(mask: u64, hideleg: u64, old: u64, v: u64) -> u64
    ensures { result ≡ take_bits (bit_and hideleg mask) (bit_and v (mask / 2) * 2) old }
{
    take_bits(hideleg & mask, (v & (mask / 2)) * 2, old)
}
