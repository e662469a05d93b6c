// Calls through the monitor's outermost entry, on one hart record: set, sync CSR, sync fence, SRET, and a probe that is refused, since V is
// on by then. After each the answer is printed, and what it left of the record, of the page and of the table. Then the same at XLEN 32.
#![tactic(auto)]

use checks::answer::Success;
use checks::call::Call;
use checks::fid;
use hart::record::Hart;
use layout::xlen::Xlen;
use layout::{dirty, place, word};
use std::io;

// Where L1 memory begins, and the page in it.
const BASE: u64 = 0x8000_0000;

// A hart record, L1 memory and a table of two slots.
#[derive(Drop)]
struct Machine {
    hart: Hart,
    memory: [u8; 12288],
    table: [u64; 8],
}

impl Machine {
    // A hart with every feature, whose SRET goes to S mode at 0x80001000 with interrupts on; and slots of VMID 5 and 6.
    fn new(x: Xlen) -> Machine {
        Machine {
            hart: Hart {
                sepc: 0x8000_1000,
                spie: true,
                spp: true,
                ..Hart::fresh(x, 15)
            },
            memory: [0; 12288],
            table: [
                0x8000_0000_0005_0000,
                0,
                0,
                0,
                0x8000_0000_0006_0000,
                0,
                0,
                0,
            ],
        }
    }

    // The word of the register at turn t.
    fn csr_word(&self, t: usize) -> u64 {
        let x = self.hart.xlen;
        word::word_at(x, &self.memory, place::csr_at(x, csr::index(t)))
    }

    // Stores the word of the register at turn t, and marks it dirty.
    fn put_csr(&mut self, t: usize, v: u64) {
        let x = self.hart.xlen;
        word::put_word(x, &mut self.memory, place::csr_at(x, csr::index(t)), v);
        dirty::set_dirty(&mut self.memory, csr::index(t));
    }

    // With what L1 leaves in the page: hstatus dirty with SPV, hvip dirty with bit 2, entry 0 Pending for VMID 5 (type 3), X1 and X31. At XLEN 32
    // also hgatp dirty with 32 ones, and entry 119 as entry 0 but with reserved bit 23.
    fn filled(mut self) -> Machine {
        let x = self.hart.xlen;
        self.put_csr(csr::HSTATUS, 0x80);
        self.put_csr(csr::HVIP, 4);
        match x {
            Xlen::X32 => {
                self.put_csr(csr::HGATP, 0xFFFF_FFFF);
                word::put_word(x, &mut self.memory, 0x800, 0x8300_0A00);
                word::put_word(x, &mut self.memory, 0xF70, 0x8380_0A00);
            }
            Xlen::X64 => word::put_word(x, &mut self.memory, 0x800, 0x8300_0000_0005_0000),
        }
        word::put_word(x, &mut self.memory, place::context_at(x, 1), 0x11);
        word::put_word(x, &mut self.memory, place::context_at(x, 31), 0x31);
        self
    }

    // What is printed of the record.
    fn record(&self, rt: &impl Print) -> io::Result<()> {
        let h = self.hart;
        match h.shmem {
            None => print!(rt; "  page none")?,
            Some(a) => print!(rt; "  page {a:x}")?,
        }
        let (hstatus, hvip) = (h.read(csr::HSTATUS), h.read(csr::HVIP));
        print!(rt;
            " hstatus {hstatus:x} hvip {hvip:x} V {} mode {:?}",
            h.virt as u8, h.mode
        )?;
        print!(rt; " pc {:x} SIE {} SPP {}", h.pc, h.sie as u8, h.spp as u8)?;
        println!(rt; " x1 {:x} x31 {:x}", h.x[1], h.x[31])
    }

    // The words of hstatus and hip, entry 0's Config word, and word 0 of both slots. At XLEN 32 also hgatp and its word, and entry 119's.
    fn words(&self, rt: &impl Print) -> io::Result<()> {
        let x = self.hart.xlen;
        let hstatus = self.csr_word(csr::HSTATUS);
        let hip = self.csr_word(csr::HIP);
        let first = word::word_at(x, &self.memory, 0x800);
        match x {
            Xlen::X32 => {
                let (hgatp, word) = (self.hart.read(csr::HGATP), self.csr_word(csr::HGATP));
                let last = word::word_at(x, &self.memory, 0xF70);
                print!(rt; "  hgatp {hgatp:x} words {hstatus:x} {hip:x} {word:x}")?;
                print!(rt; " entries {first:x} {last:x}")?;
            }
            Xlen::X64 => print!(rt; "  words {hstatus:x} {hip:x} entry {first:x}")?,
        }
        println!(rt; " slots {:x} {:x}", self.table[0], self.table[4])
    }

    // A call with one argument: its answer is printed, and what it leaves, which comes back. Memory is as long as the page, and at XLEN 32 the
    // EID has bit 32 set, which does not count.
    fn call(mut self, rt: &impl Print, label: &str, fid: u64, a0: u64) -> io::Result<Machine> {
        let x = self.hart.xlen;
        let eid = match x {
            Xlen::X32 => 0x1_0000_0000 + fid::EID,
            Xlen::X64 => fid::EID,
        };
        let page = &mut self.memory[..Hart::page_size(x)];
        let mut out = [0u64; 52];
        let told = monitor::call(
            &mut self.hart,
            BASE,
            page,
            &mut self.table,
            Call {
                eid,
                fid,
                a0,
                a1: 0,
                a2: 0,
            },
            &mut out,
        );
        match told.answer {
            Ok(Success::Value(v)) => println!(rt; "{label}: code 0 value {v:x} resumed 0")?,
            Ok(Success::Resumed) => println!(rt; "{label}: code 0 value 0 resumed 1")?,
            Err(refusal) => println!(rt; "{label}: code {} value 0 resumed 0", refusal.code())?,
        }
        self.record(rt)?;
        self.words(rt)?;
        Ok(self)
    }
}

fn wide_calls(rt: &impl Print) -> io::Result<()> {
    Machine::new(Xlen::X64)
        .call(rt, "set", fid::SET, BASE)?
        .filled()
        .call(rt, "sync csr", fid::SYNC_CSR, fid::ALL_ONES)?
        .call(rt, "sync fence", fid::SYNC_FENCE, 0)?
        .call(rt, "sret", fid::SYNC_SRET, 0)?
        .call(rt, "probe", fid::PROBE, 0)?;
    Ok(())
}

fn narrow_calls(rt: &impl Print) -> io::Result<()> {
    println!(rt; "XLEN 32")?;
    Machine::new(Xlen::X32)
        .call(rt, "set", fid::SET, BASE)?
        .filled()
        .call(rt, "sync csr", fid::SYNC_CSR, fid::ALL_ONES_32)?
        .call(rt, "sync fence 0", fid::SYNC_FENCE, 0)?
        .call(rt, "sync fence 119", fid::SYNC_FENCE, 119)?
        .call(rt, "sync fence 120", fid::SYNC_FENCE, 120)?
        .call(rt, "sret", fid::SYNC_SRET, 0)?
        .call(rt, "probe", fid::PROBE, 0)?;
    Ok(())
}

fn main(rt: HostRuntime) -> io::Result<()> {
    wide_calls(&rt)?;
    narrow_calls(&rt)
}
