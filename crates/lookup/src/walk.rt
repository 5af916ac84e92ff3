// The walk of a lookup: start at `answer`.
// Meets the rules of specs/Lookup.antt. The list grows in an answer's words, which each stage lends to the next; each stage
// has one caller, so that all of them are compiled into one.
ghost use Rattle.std.specs.Prelude.{◌≡◌};
ghost use Rattle.answers.specs.Pieces.{pieces_of};
ghost use Rattle.answers.specs.Walk.{Walks};
ghost use Rattle.answer_words.specs.AnswerWords.{words_of};
ghost use Rattle.lookup.specs.Lookup.{lookup_rule, ruled};
ghost use Rattle.lookup.specs.Walked.{told_by};

use answers::{ANSWER_WORDS, Outcome};
use context_entry::fields::Cd;
use ids::Request;
use memory_image::{Fetched, Memory};
use registers::Registers;
use stream_entry::fields::Ste;

// The whole answer. Only what lies below 2^(OAS size) of the memory is walked.
pub fn answer(
    words: &mut [u64; ANSWER_WORDS],
    registers: Registers,
    memory: Memory,
    request: Request,
)
    ensures { words.new ≡ words_of (ruled registers memory.entry.base memory.entry.bytes.now request).answer (pieces_of (ruled registers memory.entry.base memory.entry.bytes.now request).list) }
{
    let limit = bit_fields::power(registers.oas_size());
    let part = memory.below(limit);
    *words = [0u64; ANSWER_WORDS];
    let walked = walk(registers, part, request, &mut *words);
    answer_words::outcome::put_outcome(words, told_by(walked));
}

// How a walk ends, by the CD or before it.
fn told_by(walked: Result<Outcome, Outcome>) -> Outcome
    ensures { result ≡ told_by walked }
{
    match walked {
        Ok(outcome) => outcome,
        Err(outcome) => outcome,
    }
}

// Stage by stage: what the CD says, or how a stage before it ends the lookup.
fn walk(
    registers: Registers,
    memory: Memory,
    request: Request,
    words: &mut [u64; ANSWER_WORDS],
) -> Result<Outcome, Outcome>
    ensures { Walks memory.entry.base memory.entry.bytes.now (lookup_rule registers request) words.old (told_by result) words.new }
{
    let ste_at = stream_table::find_ste(registers, memory, request.stream, &mut *words)?;
    let fetched = answers::read(memory, ste_at, 64, &mut *words);
    let Fetched::At(ste_place) = fetched else {
        return Err(Outcome::Fault(answers::F_STE_FETCH, fetched.wanted()));
    };
    let ste = Ste {
        descriptor: memory.descriptor(ste_place),
    };
    let index = stream_entry::read_ste(registers, request.substream, ste_at, ste)?;
    let cd_at = context_table::find_cd(registers, memory, ste, index, &mut *words)?;
    let fetched = answers::read(memory, cd_at, 64, words);
    let Fetched::At(cd_place) = fetched else {
        return Err(Outcome::Fault(answers::F_CD_FETCH, fetched.wanted()));
    };
    let cd = Cd {
        descriptor: memory.descriptor(cd_place),
    };
    Ok(context_entry::read_cd(registers, ste_at, cd_at, cd))
}
