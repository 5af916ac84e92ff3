// The registers that a monitor hands over, their fields by the names of the standard, and refusal 1.
// Meets specs/Fields.antt, specs/Sizes.antt and specs/Words.antt. Start at `Registers::refused`.
#![tactic(auto)]

ghost use Rattle.std.specs.Prelude.{◌≡◌};
ghost use Rattle.registers.specs.Sizes.{oas_size, refusal1, size_of};

mod by_words;
mod fields;

// How many of the registers have 32 bits: all but STRTAB_BASE.
pub const REGISTER_WORDS: usize = 7;

// The eight registers of the SMMU, as read.
#[derive(Clone, Copy)]
pub struct Registers {
    pub idr0: u32,
    pub idr1: u32,
    pub idr5: u32,
    pub cr0: u32,
    pub cr2: u32,
    pub gbpa: u32,
    pub strtab_base: u64,
    pub strtab_base_cfg: u32,
}

// The size in bits of the addresses that a code of OAS means; 0 for a code that means none. No caller goes by that 0: OAS 7
// is refused, and IPS 7 counts as the OAS.
#[tactic(auto, unfolding(crate::specs::Sizes::size_of))]
pub fn size_of(code: u64) -> u64
    ensures { result ≡ size_of code }
{
    let bits: u8 = match code {
        0 => 32,
        1 => 36,
        2 => 40,
        3 => 42,
        4 => 44,
        5 => 48,
        6 => 52,
        _ => 0,
    };
    bits as u64
}

impl Registers {
    // The size of this SMMU's output addresses, in bits.
    #[tactic(auto, unfolding(crate::specs::Sizes::oas_size))]
    pub fn oas_size(self) -> u64
        ensures { result ≡ oas_size self }
    {
        size_of(self.oas())
    }

    // Refusal 1: OAS is 7, SIDSIZE above 32, or SSIDSIZE above 20.
    #[tactic(auto, unfolding(crate::specs::Sizes::refusal1))]
    pub fn refused(self) -> bool
        ensures { result ≡ refusal1 self }
    {
        if self.oas() == 7 {
            return true;
        }
        if 32 < self.sid_size() {
            return true;
        }
        20 < self.ssid_size()
    }
}
