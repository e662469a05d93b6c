// What a stored register with a rule of its own takes from a value written to it, in turn order. `old` is what the register holds.
ghost use Rattle.std.specs.Prelude.{◌≡◌, cond, ◌≤◌, ◌<◌, eqb};
ghost use Rattle.layout.specs.Bits.{field};
ghost use Rattle.hart.specs.Legal.{vgein_taken, atp_mode_taken, vectoring_taken, xl_bits, legal_hstatus, legal_hgatp, legal_vsstatus, legal_vstvec, legal_vsatp};

use layout::xlen::Xlen;

// VGEIN, taken if at most 7, else kept.
fn vgein_taken(old: u64, v: u64) -> u64
    ensures { (result ≡ vgein_taken old v) × (result < 64) }
{
    let asked = v / 0x1000 % 64;
    if asked <= 7 { asked } else { old / 0x1000 % 64 }
}

// MODE of hgatp and vsatp at XLEN 64, taken if 0 or 8, else kept.
fn atp_mode_taken(old: u64, v: u64) -> u64
    ensures { (result ≡ atp_mode_taken old v) × (result < 16) }
{
    let asked = v / 0x1000_0000_0000_0000 % 16;
    if (asked == 0) | (asked == 8) {
        asked
    } else {
        old / 0x1000_0000_0000_0000 % 16
    }
}

// vstvec's mode, taken if 0 or 1, else kept.
fn vectoring_taken(old: u64, v: u64) -> u64
    ensures { (result ≡ vectoring_taken old v) × (result < 4) }
{
    let asked = v % 4;
    if asked <= 1 { asked } else { old % 4 }
}

// What VSXL of hstatus and UXL of vsstatus, bits 33:32, read: 2; there is neither at XLEN 32.
pub fn xl_bits(x: Xlen) -> u64
    ensures { (result ≡ xl_bits x) × (result ≤ 0x200000000) }
{
    match x {
        Xlen::X32 => 0,
        Xlen::X64 => 0x2_0000_0000,
    }
}

// Bits of 0x7003C0; VGEIN; VSXL.
pub fn legal_hstatus(x: Xlen, old: u64, v: u64) -> u64
    ensures { result ≡ legal_hstatus x old v }
{
    (v & 0x7003C0) + vgein_taken(old, v) * 0x1000 + xl_bits(x)
}

// MODE; VMID 57:44; PPN 43:2; other bits 0. At XLEN 32 MODE 31, VMID 28:22, PPN 21:2.
pub fn legal_hgatp(x: Xlen, old: u64, v: u64) -> u64
    ensures { result ≡ legal_hgatp x old v }
{
    match x {
        Xlen::X32 => v & 0x9FFF_FFFC,
        Xlen::X64 => (v & 0x03FF_FFFF_FFFF_FFFC) + atp_mode_taken(old, v) * 0x1000_0000_0000_0000,
    }
}

// SD, vsstatus bit 63, at XLEN 32 bit 31: set exactly if FS, bits 14:13, is 3.
fn dirty_state(v: u64) -> u64
    ensures { (result ≡ cond (eqb (field v 13 2) 3) 1 0) × (result < 2) }
{
    u64::from(v / 0x2000 % 4 == 3)
}

// Bits of 0xC6122; UXL; SD.
pub fn legal_vsstatus(x: Xlen, v: u64) -> u64
    ensures { result ≡ legal_vsstatus x v }
{
    let taken = v & 0xC6122;
    let dirty = dirty_state(v);
    match x {
        Xlen::X32 => taken + dirty * 0x8000_0000,
        Xlen::X64 => taken + 0x2_0000_0000 + dirty * 0x8000_0000_0000_0000,
    }
}

// Bits 63:2, at XLEN 32 31:2; mode.
pub fn legal_vstvec(x: Xlen, old: u64, v: u64) -> u64
    ensures { result ≡ legal_vstvec x old v }
{
    let mode = vectoring_taken(old, v);
    match x {
        Xlen::X32 => (v & 0xFFFF_FFFC) + mode,
        Xlen::X64 => (v & 0xFFFF_FFFF_FFFF_FFFC) + mode,
    }
}

// MODE; bits 59:0. At XLEN 32 MODE 31, ASID 30:22, PPN 21:0.
pub fn legal_vsatp(x: Xlen, old: u64, v: u64) -> u64
    ensures { result ≡ legal_vsatp x old v }
{
    match x {
        Xlen::X32 => v & 0xFFFF_FFFF,
        Xlen::X64 => (v & 0x0FFF_FFFF_FFFF_FFFF) + atp_mode_taken(old, v) * 0x1000_0000_0000_0000,
    }
}
