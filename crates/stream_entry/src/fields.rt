// An STE, and its fields, a method each, by the names of 003.
// Meets specs/StreamEntry.antt, which gives the rules' bits; the numbers here are the word, the lowest bit in it and the width.
// An STE and a CD are two types with nothing in common but the descriptor, so that neither is taken for the other.
ghost use Rattle.std.specs.Prelude.{◌≡◌};
ghost use Rattle.memory_image.specs.Descriptor.{descriptor_words};
ghost use Rattle.stream_entry.specs.StreamEntry as fields;

use bit_fields::field;
use memory_image::Descriptor;
use registers::Registers;

// An STE that was fetched.
#[derive(Clone, Copy)]
pub struct Ste<'a> {
    pub descriptor: Descriptor<'a>,
}

impl Ste<'_> {
    // V: the STE is valid.
    pub fn v(self) -> u64
        ensures { result ≡ fields.v (descriptor_words self.entry.descriptor) }
    {
        field(self.descriptor.word(0), 0, 1)
    }

    // Config: which stages there are.
    pub fn config(self) -> u64
        ensures { result ≡ fields.config (descriptor_words self.entry.descriptor) }
    {
        field(self.descriptor.word(0), 1, 3)
    }

    // S1Fmt: the format of the CD table.
    pub fn s1_fmt(self) -> u64
        ensures { result ≡ fields.s1_fmt (descriptor_words self.entry.descriptor) }
    {
        field(self.descriptor.word(0), 4, 2)
    }

    // S1ContextPtr: an address, its bits where they stand.
    pub fn s1_context_ptr(self) -> u64
        ensures { result ≡ fields.s1_context_ptr (descriptor_words self.entry.descriptor) }
    {
        field(self.descriptor.word(0), 6, 50) * 64
    }

    // S1CDMax: how many bits of SubstreamIDs the CD table has.
    pub fn s1_cd_max(self, registers: Registers) -> u64
        ensures { result ≡ fields.s1_cd_max registers (descriptor_words self.entry.descriptor) }
    {
        field(self.descriptor.word(0), 59, 5)
    }

    // S1DSS: what a stream without a SubstreamID gets.
    pub fn s1_dss(self) -> u64
        ensures { result ≡ fields.s1_dss (descriptor_words self.entry.descriptor) }
    {
        field(self.descriptor.word(1), 0, 2)
    }

    // STRW: the StreamWorld.
    pub fn strw(self) -> u64
        ensures { result ≡ fields.strw (descriptor_words self.entry.descriptor) }
    {
        field(self.descriptor.word(1), 30, 2)
    }
}
