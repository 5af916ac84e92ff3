// Where a stream's STE lies. Start at `find_ste`.
// Meets specs/StreamTable.antt; reads only through `answers::read`.
#![tactic(auto)]

ghost use Rattle.std.specs.Prelude.{◌≡◌};
ghost use Rattle.answers.specs.Walk.{Walks};
ghost use Rattle.stream_table.specs.StreamTable.{is_linear, l1std_at, leaf_rule, linear_at, log2, split_of, stes_held, stream_rule, switched_off, two_level_rule};

use answers::{ANSWER_WORDS, Outcome};
use bit_fields::{aligned_down, field, high, in_bits, low, power};
use ids::StreamId;
use memory_image::{Fetched, Memory};
use registers::Registers;

// Step 1: what every stream gets while SMMUEN is 0.
#[tactic(auto, unfolding(crate::specs::StreamTable::switched_off))]
fn switched_off(registers: Registers) -> Outcome
    ensures { result ≡ switched_off registers }
{
    if registers.abort() == 1 {
        Outcome::Quiet
    } else {
        Outcome::BypassGlobal
    }
}

// Step 2: the smaller of LOG2SIZE and SIDSIZE.
fn log2(registers: Registers) -> u64
    ensures { result ≡ log2 registers }
{
    registers.log2size().min(registers.sid_size())
}

// Step 3: whether the table is linear, and where the STE is then.
#[tactic(auto, unfolding(crate::specs::StreamTable::is_linear))]
fn is_linear(registers: Registers) -> bool
    ensures { result ≡ is_linear registers }
{
    if registers.st_level() == 0 {
        return true;
    }
    registers.fmt() != 1
}

#[tactic(auto, unfolding(crate::specs::StreamTable::linear_at))]
fn linear_at(registers: Registers, stream: StreamId) -> u64
    ensures { result ≡ linear_at registers stream.number }
{
    let table = aligned_down(registers.addr(), log2(registers) + 6);
    table + 64 * (stream.number as u64)
}

// Step 4: how many low bits of a StreamID choose in the leaf.
#[tactic(auto, unfolding(crate::specs::StreamTable::split_of))]
fn split_of(code: u64) -> u64
    ensures { result ≡ split_of code }
{
    match code {
        6 => 6,
        8 => 8,
        10 => 10,
        _ => 6,
    }
}

#[tactic(auto, unfolding(crate::specs::StreamTable::l1std_at))]
fn l1std_at(registers: Registers, split: u64, stream: StreamId) -> u64
    ensures { result ≡ l1std_at registers split stream.number }
{
    let above = (log2(registers) + 2).saturating_sub(split);
    let table = aligned_down(registers.addr(), above.max(5) + 1);
    table + 8 * high(stream.number as u64, split)
}

// Step 5: how many STEs a leaf holds, by its Span; none where that is invalid.
#[tactic(auto, unfolding(crate::specs::StreamTable::stes_held))]
fn stes_held(span: u64, split: u64) -> Option<u64>
    ensures { result ≡ stes_held span split }
{
    match span {
        0 => None,
        1..=11 => {
            if split < span - 1 {
                return None;
            }
            Some(power(span - 1))
        }
        _ => None,
    }
}

// Steps 5 and 6: where an L1STD says that the STE is, or how the lookup ends.
#[tactic(auto, unfolding(crate::specs::StreamTable::leaf_rule))]
fn leaf_rule(registers: Registers, split: u64, l1std: u64, stream: StreamId) -> Result<u64, Outcome>
    ensures { result ≡ leaf_rule registers split l1std stream.number }
{
    let span = field(l1std, 0, 5);
    let index = low(stream.number as u64, split);
    let Some(n) = stes_held(span, split) else {
        return Err(Outcome::Abort(answers::C_BAD_STREAMID));
    };
    if n <= index {
        return Err(Outcome::Abort(answers::C_BAD_STREAMID));
    }
    let pointer = field(l1std, 6, 50) * 64;
    let table = aligned_down(pointer, 5 + span);
    Ok(table + 64 * index)
}

// Steps 4 to 6: a two-level table, split at so many bits. Its twin for CDs in context_table differs in the address, the
// event and the rule of what is read, which are the whole of it.
fn two_level(
    registers: Registers,
    split: u64,
    memory: Memory,
    stream: StreamId,
    words: &mut [u64; ANSWER_WORDS],
) -> Result<u64, Outcome>
    ensures { Walks memory.entry.base memory.entry.bytes.now (two_level_rule registers split stream.number) words.old result words.new }
{
    let address = l1std_at(registers, split, stream);
    let fetched = answers::read(memory, address, 8, words);
    let Fetched::At(place) = fetched else {
        return Err(Outcome::Fault(answers::F_STE_FETCH, fetched.wanted()));
    };
    let l1std = memory.descriptor(place).word(0);
    leaf_rule(registers, split, l1std, stream)
}

// Where the STE of a stream lies, or how the lookup ends before. What is read goes on the list in the words.
pub fn find_ste(
    registers: Registers,
    memory: Memory,
    stream: StreamId,
    words: &mut [u64; ANSWER_WORDS],
) -> Result<u64, Outcome>
    ensures { Walks memory.entry.base memory.entry.bytes.now (stream_rule registers stream.number) words.old result words.new }
{
    if registers.smmu_en() == 0 {
        return Err(switched_off(registers));
    }
    if !in_bits(stream.number as u64, log2(registers)) {
        return Err(Outcome::Abort(answers::C_BAD_STREAMID));
    }
    if is_linear(registers) {
        return Ok(linear_at(registers, stream));
    }
    let split = split_of(registers.split());
    two_level(registers, split, memory, stream, words)
}
