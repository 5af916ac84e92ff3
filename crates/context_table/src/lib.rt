// Where a CD lies. Start at `find_cd`.
// Meets specs/ContextTable.antt; reads only through `answers::read`.
#![tactic(auto)]

ghost use Rattle.std.specs.Prelude.{◌≡◌};
ghost use Rattle.memory_image.specs.Descriptor.{descriptor_words};
ghost use Rattle.answers.specs.Walk.{Walks};
ghost use Rattle.stream_entry.specs.StreamEntry.{s1_context_ptr};
ghost use Rattle.context_table.specs.ContextTable.{context_rule, l1cd_rule, leaf_bits, two_level_rule};

use answers::{ANSWER_WORDS, Outcome};
use bit_fields::{field, high, low};
use memory_image::{Fetched, Memory};
use registers::Registers;
use stream_entry::fields::Ste;

// How many low bits of an index choose in the leaf.
#[tactic(auto, unfolding(crate::specs::ContextTable::leaf_bits))]
fn leaf_bits(format: u64) -> u64
    ensures { result ≡ leaf_bits format }
{
    if format == 1 { 6 } else { 10 }
}

// Where an L1CD says that the CD is, or how the lookup ends.
#[tactic(auto, unfolding(crate::specs::ContextTable::l1cd_rule))]
fn l1cd_rule(registers: Registers, leaf: u64, l1cd: u64, index: u32) -> Result<u64, Outcome>
    ensures { result ≡ l1cd_rule registers leaf l1cd index }
{
    if field(l1cd, 0, 1) == 0 {
        return Err(Outcome::Abort(answers::C_BAD_SUBSTREAMID));
    }
    let table = field(l1cd, 12, 44) * 4096;
    Ok(table + 64 * low(index as u64, leaf))
}

// A two-level table, by the STE, with so many low bits of the index in the leaf.
fn two_level(
    registers: Registers,
    memory: Memory,
    ste: Ste,
    leaf: u64,
    index: u32,
    words: &mut [u64; ANSWER_WORDS],
) -> Result<u64, Outcome>
    ensures { Walks memory.entry.base memory.entry.bytes.now (two_level_rule registers (s1_context_ptr (descriptor_words ste.entry.descriptor)) leaf index) words.old result words.new }
{
    let address = ste.s1_context_ptr() + 8 * high(index as u64, leaf);
    let fetched = answers::read(memory, address, 8, words);
    let Fetched::At(place) = fetched else {
        return Err(Outcome::Fault(answers::F_CD_FETCH, fetched.wanted()));
    };
    let l1cd = memory.descriptor(place).word(0);
    l1cd_rule(registers, leaf, l1cd, index)
}

// Where the CD with an index lies, by the STE, or how the lookup ends before. What is read goes on the list in the words.
pub fn find_cd(
    registers: Registers,
    memory: Memory,
    ste: Ste,
    index: u32,
    words: &mut [u64; ANSWER_WORDS],
) -> Result<u64, Outcome>
    ensures { Walks memory.entry.base memory.entry.bytes.now (context_rule registers (descriptor_words ste.entry.descriptor) index) words.old result words.new }
{
    let pointer = ste.s1_context_ptr();
    if ste.s1_cd_max(registers) == 0 {
        return Ok(pointer);
    }
    let format = ste.s1_fmt();
    if format == 0 {
        return Ok(pointer + 64 * (index as u64));
    }
    let leaf = leaf_bits(format);
    two_level(registers, memory, ste, leaf, index, words)
}
