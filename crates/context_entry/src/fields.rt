// A CD, and its fields, a method each, by the names of 003.
// Meets specs/ContextEntry.antt, which gives the rules' bits; the numbers here are the word, the lowest bit in it and the width.
// An STE and a CD are two types with nothing in common but the descriptor, so that neither is taken for the other.
ghost use Rattle.std.specs.Prelude.{◌≡◌};
ghost use Rattle.memory_image.specs.Descriptor.{descriptor_words};
ghost use Rattle.context_entry.specs.ContextEntry as fields;

use bit_fields::field;
use memory_image::Descriptor;

// A CD that was fetched.
#[derive(Clone, Copy)]
pub struct Cd<'a> {
    pub descriptor: Descriptor<'a>,
}

impl Cd<'_> {
    // T0SZ: the size of the first half of the address space.
    pub fn t0sz(self) -> u64
        ensures { result ≡ fields.t0sz (descriptor_words self.entry.descriptor) }
    {
        field(self.descriptor.word(0), 0, 6)
    }

    // TG0: its granule, as a code.
    pub fn tg0(self) -> u64
        ensures { result ≡ fields.tg0 (descriptor_words self.entry.descriptor) }
    {
        field(self.descriptor.word(0), 6, 2)
    }

    // EPD0: no tables are walked for it.
    pub fn epd0(self) -> u64
        ensures { result ≡ fields.epd0 (descriptor_words self.entry.descriptor) }
    {
        field(self.descriptor.word(0), 14, 1)
    }

    // V: the CD is valid.
    pub fn v(self) -> u64
        ensures { result ≡ fields.v (descriptor_words self.entry.descriptor) }
    {
        field(self.descriptor.word(0), 31, 1)
    }

    // IPS: the size of intermediate addresses, as a code.
    pub fn ips(self) -> u64
        ensures { result ≡ fields.ips (descriptor_words self.entry.descriptor) }
    {
        field(self.descriptor.word(0), 32, 3)
    }

    // AA64: the tables are of VMSAv8-64.
    pub fn aa64(self) -> u64
        ensures { result ≡ fields.aa64 (descriptor_words self.entry.descriptor) }
    {
        field(self.descriptor.word(0), 41, 1)
    }

    // ASID.
    pub fn asid(self) -> u64
        ensures { result ≡ fields.asid (descriptor_words self.entry.descriptor) }
    {
        field(self.descriptor.word(0), 48, 16)
    }

    // TTB0: the address of the tables, its bits where they stand.
    pub fn ttb0(self) -> u64
        ensures { result ≡ fields.ttb0 (descriptor_words self.entry.descriptor) }
    {
        field(self.descriptor.word(1), 4, 52) * 16
    }
}
