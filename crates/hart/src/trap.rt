// The record that a trap back from the guest leaves.
ghost use Rattle.std.specs.Prelude.{◌≡◌};
ghost use Rattle.hart.specs.Trap.{trap_hstatus, trapped};

use crate::record::{Hart, Mode};

// What a trap reports: scause, stval, htval, htinst and hstatus.GVA take these.
#[derive(Clone, Copy, Debug, PartialEq, Eq)]
pub struct Trap {
    pub cause: u64,
    pub tval: u64,
    pub htval: u64,
    pub htinst: u64,
    pub gva: bool,
}

// hstatus: GVA takes the bit given, SPV becomes 1, SPVP takes the old mode.
fn trap_hstatus(gva: bool, s: bool, hstatus: u64) -> u64
    ensures { result ≡ trap_hstatus gva s hstatus }
{
    let gva_taken = hstatus - hstatus / 0x40 % 2 * 0x40 + u64::from(gva) * 0x40;
    let spv_set = gva_taken - gva_taken / 0x80 % 2 * 0x80 + 0x80;
    spv_set - spv_set / 0x100 % 2 * 0x100 + u64::from(s) * 0x100
}

impl Hart {
    // V off; hstatus, SPP, SPIE, SIE, sepc, the mode, pc, htval, htinst, scause and stval as a trap to S sets them.
    pub fn trapped(mut self, t: Trap) -> Hart
        ensures { result ≡ trapped t self }
    {
        let s = self.mode == Mode::S;
        self.csrs[Hart::HSTATUS] = trap_hstatus(t.gva, s, self.csrs[Hart::HSTATUS]);
        self.csrs[Hart::HTVAL] = t.htval;
        self.csrs[Hart::HTINST] = t.htinst;
        Hart {
            virt: false,
            mode: Mode::S,
            pc: self.stvec,
            sepc: self.pc - self.pc % 2,
            scause: t.cause,
            stval: t.tval,
            sie: false,
            spie: self.sie,
            spp: s,
            ..self
        }
    }
}
