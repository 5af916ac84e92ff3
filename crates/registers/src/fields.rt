// The fields of the registers, a function each, by the standard's names.
// Meets specs/Fields.antt, which gives the rules' bits; the numbers here are the lowest bit and the width. Each is a function
// with a promise of its own, so that a rule says the standard's name and not where the bits are.
ghost use Rattle.std.specs.Prelude.{◌≡◌};
ghost use Rattle.registers.specs.Fields as fields;

use bit_fields::field;

impl super::Registers {
    // IDR0.S2P: stage 2 is there.
    pub fn s2p(self) -> u64
        ensures { result ≡ fields.s2p self }
    {
        field(self.idr0 as u64, 0, 1)
    }

    // IDR0.S1P: stage 1 is there.
    pub fn s1p(self) -> u64
        ensures { result ≡ fields.s1p self }
    {
        field(self.idr0 as u64, 1, 1)
    }

    // IDR0.TTF: which formats of translation tables are there.
    pub fn ttf(self) -> u64
        ensures { result ≡ fields.ttf self }
    {
        field(self.idr0 as u64, 2, 2)
    }

    // IDR0.HYP: StreamWorlds of a hypervisor are there.
    pub fn hyp(self) -> u64
        ensures { result ≡ fields.hyp self }
    {
        field(self.idr0 as u64, 9, 1)
    }

    // IDR0.CD2L: two-level CD tables are there.
    pub fn cd2l(self) -> u64
        ensures { result ≡ fields.cd2l self }
    {
        field(self.idr0 as u64, 19, 1)
    }

    // IDR0.ST_LEVEL: two-level Stream tables are there.
    pub fn st_level(self) -> u64
        ensures { result ≡ fields.st_level self }
    {
        field(self.idr0 as u64, 27, 2)
    }

    // IDR1.SIDSIZE: the width of a StreamID here.
    pub fn sid_size(self) -> u64
        ensures { result ≡ fields.sid_size self }
    {
        field(self.idr1 as u64, 0, 6)
    }

    // IDR1.SSIDSIZE: the width of a SubstreamID here.
    pub fn ssid_size(self) -> u64
        ensures { result ≡ fields.ssid_size self }
    {
        field(self.idr1 as u64, 6, 5)
    }

    // IDR5.OAS: a code of the size of output addresses.
    pub fn oas(self) -> u64
        ensures { result ≡ fields.oas self }
    {
        field(self.idr5 as u64, 0, 3)
    }

    // IDR5.GRAN4K
    pub fn gran4k(self) -> u64
        ensures { result ≡ fields.gran4k self }
    {
        field(self.idr5 as u64, 4, 1)
    }

    // IDR5.GRAN16K
    pub fn gran16k(self) -> u64
        ensures { result ≡ fields.gran16k self }
    {
        field(self.idr5 as u64, 5, 1)
    }

    // IDR5.GRAN64K
    pub fn gran64k(self) -> u64
        ensures { result ≡ fields.gran64k self }
    {
        field(self.idr5 as u64, 6, 1)
    }

    // CR0.SMMUEN
    pub fn smmu_en(self) -> u64
        ensures { result ≡ fields.smmu_en self }
    {
        field(self.cr0 as u64, 0, 1)
    }

    // CR2.RECINVSID: C_BAD_STREAMID is recorded.
    pub fn rec_inv_sid(self) -> u64
        ensures { result ≡ fields.rec_inv_sid self }
    {
        field(self.cr2 as u64, 1, 1)
    }

    // GBPA.ABORT: what is done while SMMUEN is 0.
    pub fn abort(self) -> u64
        ensures { result ≡ fields.abort self }
    {
        field(self.gbpa as u64, 20, 1)
    }

    // STRTAB_BASE.ADDR: the Stream table's address.
    pub fn addr(self) -> u64
        ensures { result ≡ fields.addr self }
    {
        field(self.strtab_base, 6, 50) * 64
    }

    // STRTAB_BASE_CFG.FMT
    pub fn fmt(self) -> u64
        ensures { result ≡ fields.fmt self }
    {
        field(self.strtab_base_cfg as u64, 16, 2)
    }

    // STRTAB_BASE_CFG.SPLIT
    pub fn split(self) -> u64
        ensures { result ≡ fields.split self }
    {
        field(self.strtab_base_cfg as u64, 6, 5)
    }

    // STRTAB_BASE_CFG.LOG2SIZE
    pub fn log2size(self) -> u64
        ensures { result ≡ fields.log2_size self }
    {
        field(self.strtab_base_cfg as u64, 0, 6)
    }
}
