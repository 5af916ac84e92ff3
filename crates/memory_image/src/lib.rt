// The lent memory: which extents are refused, and fetching a descriptor, whose words are in descriptor.rt. Start at `Memory::fetch`.
// Meets specs/Extent.antt and specs/Words.antt. specs/Rule.antt has the form of every rule that reads
// descriptors, and proofs/RunLaws.antt what holds of all of them.
#![tactic(auto)]

ghost use Rattle.std.specs.Prelude.{◌≡◌};
ghost use Rattle.memory_image.specs.Extent.{below, end_of, extent_of, fetch_rule, refusal2, wanted};
ghost use Rattle.memory_image.specs.Words.{word_of};
ghost use Rattle.memory_image.specs.Descriptor.{descriptor_words};

pub use descriptor::Descriptor;

mod descriptor;

// The most bytes that are lent.
pub const MEMORY_MOST: u64 = 65536;

// No address reaches this.
pub const ADDRESS_TOP: u64 = 1 << 52;

// A descriptor that was fetched.
#[derive(Clone, Copy)]
pub struct Piece {
    pub address: u64,
    pub length: u64,
}

// What a fetch finds: the offset of the descriptor in the memory, or that it is not there to be had, with the address that
// was wanted. It is the form that document 01 gives a place that reads a descriptor; an `Option` would lose the address, and
// `Result<usize, u64>` has two numbers that say nothing.
#[derive(Clone, Copy)]
pub enum Fetched {
    At(usize),
    Outside(u64),
}

impl Fetched {
    // The address that a fetch which failed wanted; 0 of one that did not fail.
    #[tactic(auto, unfolding(crate::specs::Extent::wanted))]
    pub fn wanted(self) -> u64
        ensures { result ≡ wanted self }
    {
        match self {
            Fetched::At(_) => 0,
            Fetched::Outside(address) => address,
        }
    }
}

// Where a memory is lent: the address of its first byte, and how many there are.
#[derive(Clone, Copy, PartialEq, Eq)]
pub struct Extent {
    pub base: u64,
    pub length: u64,
}

// The lent memory: the address of its first byte, and its bytes.
#[derive(Clone, Copy)]
pub struct Memory<'a> {
    pub base: u64,
    pub bytes: &'a [u8],
}

impl Extent {
    // Refusal 2: base not a multiple of 64, length above 65,536, or base + length above 2^52.
    #[tactic(auto, unfolding(crate::specs::Extent::refusal2))]
    pub fn refused(self) -> bool
        ensures { result ≡ refusal2 self }
    {
        if self.base % 64 != 0 {
            return true;
        }
        if MEMORY_MOST < self.length {
            return true;
        }
        ADDRESS_TOP - self.length < self.base
    }
}

impl<'a> Memory<'a> {
    // Where it is lent.
    pub fn extent(self) -> Extent
        ensures { result ≡ extent_of self.entry.base self.entry.bytes.now }
    {
        Extent {
            base: self.base,
            length: self.bytes.len() as u64,
        }
    }

    // Refusal 2.
    pub fn refused(self) -> bool
        ensures { result ≡ refusal2 (extent_of self.entry.base self.entry.bytes.now) }
    {
        self.extent().refused()
    }

    // What of it lies below the limit: no descriptor that ends above that is in it.
    pub fn below(self, limit: u64) -> Memory<'a>
        ensures base { result.base ≡ self.entry.base }
        ensures bytes { result.bytes.now ≡ below self.entry.base limit self.entry.bytes.now }
    {
        Memory {
            base: self.base,
            bytes: below(self.base, self.bytes, limit),
        }
    }

    // Where a descriptor of so many bytes at an address lies, if it lies wholly in the memory. It computes no sum, so
    // nothing can overflow.
    #[tactic(auto, using(crate::proofs::ExtentLaws::fetch_ways))]
    pub fn fetch(self, address: u64, size: u64) -> Fetched
        ensures { result ≡ fetch_rule (extent_of self.entry.base self.entry.bytes.now) (end_of (extent_of self.entry.base self.entry.bytes.now)) address size }
    {
        let len = self.bytes.len() as u64;
        if address < self.base {
            return Fetched::Outside(address);
        }
        if len < size {
            return Fetched::Outside(address);
        }
        if len - size < address - self.base {
            return Fetched::Outside(address);
        }
        let place = address - self.base;
        Fetched::At(place as usize)
    }

    // The descriptor at a place.
    pub fn descriptor(self, place: usize) -> Descriptor<'a>
        ensures { descriptor_words result ≡ word_of self.entry.bytes.now place }
    {
        Descriptor {
            bytes: self.bytes,
            place,
        }
    }
}

// The bytes of a memory at a base that lie below the limit.
#[tactic(auto, unfolding(crate::specs::Extent::below))]
fn below<'a>(base: u64, memory: &'a [u8], limit: u64) -> &'a [u8]
    ensures { result.now ≡ below base limit memory.now }
{
    if limit < base {
        return &memory[0..0];
    }
    let room = limit - base;
    if memory.len() as u64 <= room {
        return memory;
    }
    let end = room as usize;
    &memory[0..end]
}
