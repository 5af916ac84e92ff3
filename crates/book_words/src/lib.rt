// The words of a book, read and written; refusal 7 is in well.rt. Start at `fill`.
// Meets specs/Layout.antt; the search, `first_from`, meets that of specs/Malformed.antt.
#![tactic(auto)]

ghost use Rattle.std.specs.Prelude.{◌≡◌, ◌≤◌, ◌<◌};
ghost use Rattle.book_words.specs.Layout.{block_at, kept_at, low_word, opened_with, extent_held, other_extent, registers_of, slots_most};
ghost use Rattle.book_words.specs.Malformed.{first_from};

use answers::ANSWER_WORDS;
use memory_image::Extent;
use registers::{REGISTER_WORDS, Registers};

pub mod well;

// The most slots that a book has.
pub const SLOTS_MOST: usize = 64;

// The header: the number of slots in word 0, then the registers of 32 bits, STRTAB_BASE, and the memory's base and length.
const REGISTERS_AT: usize = 1;

const STRTAB_BASE_AT: usize = REGISTERS_AT + REGISTER_WORDS;

const BASE_AT: usize = STRTAB_BASE_AT + 1;

const LENGTH_AT: usize = BASE_AT + 1;

// Where the keys start, one for each slot; and the blocks.
pub const KEYS: usize = LENGTH_AT + 1;

const BLOCKS: usize = KEYS + SLOTS_MOST;

// The words of a book: the header, a key and a block for each slot.
pub const BOOK_WORDS: usize = BLOCKS + SLOTS_MOST * ANSWER_WORDS;

// Every word of a book that is opened.
pub fn fill(book: &mut [u64; BOOK_WORDS], registers: Registers, extent: Extent, slots: u64)
    ensures { book.new ≡ opened_with registers extent slots }
{
    let words = registers.words();
    *book = [0u64; BOOK_WORDS];
    book[0] = slots;
    for (k, word) in words.iter().enumerate() {
        book[REGISTERS_AT + k] = *word as u64;
    }
    book[STRTAB_BASE_AT] = registers.strtab_base;
    book[BASE_AT] = extent.base;
    book[LENGTH_AT] = extent.length;
}

// The low 32 bits of a word.
fn low_word(word: u64) -> u32
    ensures { result ≡ low_word word }
{
    (word % 4294967296) as u32
}

// The registers that the book was opened with.
pub fn registers_of(book: &[u64; BOOK_WORDS]) -> Registers
    ensures { result ≡ registers_of book.now }
{
    let mut words = [0u32; REGISTER_WORDS];
    for (j, word) in words.iter_mut().enumerate() {
        *word = low_word(book[REGISTERS_AT + j]);
    }
    let strtab_base = book[STRTAB_BASE_AT];
    Registers::from_words(&words, strtab_base)
}

// Refusal 6: the memory is not the one that the book was opened with.
#[tactic(auto, using(crate::proofs::WordsLaws::other_is))]
pub fn is_other(book: &[u64; BOOK_WORDS], extent: Extent) -> bool
    ensures { result ≡ other_extent book.now extent.base extent.length }
{
    extent != extent_of(book)
}

// Where the memory was lent that the book was opened with.
pub fn extent_of(book: &[u64; BOOK_WORDS]) -> Extent
    ensures { result ≡ extent_held book.now }
{
    Extent {
        base: book[BASE_AT],
        length: book[LENGTH_AT],
    }
}

// The lowest slot below n with a key, or n, which its callers compare with their own slot. This crate's functions on a slot
// ask that there is one: whoever calls them counts slots, and nothing outside the library can call them.
pub fn first_from(book: &[u64; BOOK_WORDS], key: u64, n: usize) -> usize
    requires { n ≤ slots_most }
    ensures { (result ≡ first_from book.now key n 0) × (result ≤ n) }
{
    let keys = &book[KEYS..KEYS + n];
    keys.iter().position(|held| *held == key).unwrap_or(n)
}

// The words that a slot keeps its answer in. Word by word: a copy of slices is a call of memmove
// after a test that they don't overlap, which made an ask half as slow again.
pub fn block(book: &[u64; BOOK_WORDS], i: usize) -> [u64; ANSWER_WORDS]
    requires { i < slots_most }
    ensures { result ≡ block_at book.now i }
{
    let b = BLOCKS + ANSWER_WORDS * i;
    let mut words = [0u64; ANSWER_WORDS];
    for (j, word) in words.iter_mut().enumerate() {
        *word = book[b + j];
    }
    words
}

// Fills a slot with a key and a block.
pub fn keep_at(book: &mut [u64; BOOK_WORDS], i: usize, key: u64, block: &[u64; ANSWER_WORDS])
    requires { i < slots_most }
    ensures { book.new ≡ kept_at book.old i key block.now }
{
    book[KEYS + i] = key;
    let b = BLOCKS + ANSWER_WORDS * i;
    for (k, word) in block.iter().enumerate() {
        book[b + k] = *word;
    }
}
