// A descriptor that was fetched, and its words. Start at `Descriptor::word`.
// Meets specs/Words.antt and specs/Descriptor.antt.
ghost use Rattle.std.specs.Prelude.{◌≡◌, ◌+◌, ◌≤◌, length};
ghost use Rattle.memory_image.specs.Words.{bytes, word};
ghost use Rattle.memory_image.specs.Descriptor.{descriptor_words};

// No descriptor has more words.
const WORDS_MOST: usize = 8;

// A descriptor, by its place among the lent bytes.
#[derive(Clone, Copy)]
pub struct Descriptor<'a> {
    pub bytes: &'a [u8],
    pub place: usize,
}

impl Descriptor<'_> {
    // Word k; 0 where that word does not lie wholly in the memory, or a descriptor has none
    // such. It asks nothing of its caller.
    #[tactic(auto, using(crate::proofs::WordsLaws::word_ways))]
    pub fn word(self, k: usize) -> u64
        ensures { result ≡ descriptor_words self.entry k }
    {
        if WORDS_MOST <= k {
            return 0;
        }
        let end = 8 * k + 8;
        if self.bytes.len() < end {
            return 0;
        }
        if self.bytes.len() - end < self.place {
            return 0;
        }
        let at = self.place + 8 * k;
        eight(self.bytes, at)
    }
}

// The word at an offset where one is: byte n of it stands from bit 8n on. It is a loop and not `u64::from_le_bytes`, which
// takes an array, and the bytes lent are a slice.
#[tactic(auto, using(crate::proofs::WordsLaws::lowest_more, crate::proofs::WordsLaws::lowest_all))]
fn eight(memory: &[u8], at: usize) -> u64
    requires { at + 8 ≤ length memory.now }
    ensures { result ≡ word (bytes memory.now) at }
{
    let mut word: u64 = 0;
    for n in 0..8 {
        word |= (memory[at + n] as u64) << (8 * n);
    }
    word
}
