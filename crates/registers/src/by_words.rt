// The registers from words and as words: those of 32 bits in one order, and STRTAB_BASE, which has 64, by itself.
// Meets specs/Words.antt.
ghost use Rattle.std.specs.Prelude.{◌≡◌};
ghost use Rattle.registers.specs.Words.{registers_from, words_of_registers};

use super::{REGISTER_WORDS, Registers};

impl super::Registers {
    // The registers, from the words of those of 32 bits, and STRTAB_BASE.
    pub fn from_words(words: &[u32; REGISTER_WORDS], strtab_base: u64) -> Registers
        ensures { result ≡ registers_from words.now strtab_base }
    {
        let [idr0, idr1, idr5, cr0, cr2, gbpa, strtab_base_cfg] = *words;
        Registers {
            idr0,
            idr1,
            idr5,
            cr0,
            cr2,
            gbpa,
            strtab_base,
            strtab_base_cfg,
        }
    }

    // The words of the registers of 32 bits.
    pub fn words(self) -> [u32; REGISTER_WORDS]
        ensures { result ≡ words_of_registers self }
    {
        [
            self.idr0,
            self.idr1,
            self.idr5,
            self.cr0,
            self.cr2,
            self.gbpa,
            self.strtab_base_cfg,
        ]
    }
}
