// The record with one part changed, and the record that SRET leaves.
ghost use Rattle.std.specs.Prelude.{◌≡◌};
ghost use Rattle.hart.specs.Record.{with_lines, with_shmem, with_general, returned};
ghost use Rattle.hart.specs.Dropped.{counted};

use crate::record::{Hart, Mode};

impl Hart {
    // Other lines.
    pub fn with_lines(self, lines: u64) -> Hart
        ensures { result ≡ with_lines self lines }
    {
        Hart { lines, ..self }
    }

    // Another page address.
    pub fn with_shmem(self, shmem: Option<u64>) -> Hart
        ensures { result ≡ with_shmem self shmem }
    {
        Hart { shmem, ..self }
    }

    // Other general registers.
    pub fn with_general(self, x: [u64; 32]) -> Hart
        ensures { result ≡ with_general self x }
    {
        Hart { x, ..self }
    }

    // So many writes more that dropped bits; their number stays at 2^32 - 1.
    pub fn counted(mut self, writes: usize) -> Hart
        ensures { result ≡ counted writes self }
    {
        let room = u32::MAX - self.dropped;
        self.dropped += writes.min(room as usize) as u32;
        self
    }

    // V takes SPV, mode takes SPP, SPV 0, SIE takes SPIE, SPIE 1, SPP 0, pc takes sepc.
    pub fn returned(mut self) -> Hart
        ensures { result ≡ returned self }
    {
        let hstatus = self.csrs[Hart::HSTATUS];
        let spv = hstatus / 0x80 % 2;
        self.csrs[Hart::HSTATUS] = hstatus - spv * 0x80;
        Hart {
            virt: spv == 1,
            mode: Mode::from(self.spp),
            pc: self.sepc,
            sie: self.spie,
            spie: true,
            spp: false,
            ..self
        }
    }
}
