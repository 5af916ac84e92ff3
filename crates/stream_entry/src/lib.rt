// What an STE says. Start at `read_ste`.
// Meets specs/StreamEntry.antt; an STE and its fields are in fields.rt.
#![tactic(auto)]

ghost use Rattle.std.specs.Prelude.{◌≡◌, ◌<◌};
ghost use Rattle.memory_image.specs.Descriptor.{descriptor_words};
ghost use Rattle.stream_entry.specs.StreamEntry.{bad_stage1, bypass_rule, not_there, stage1_rule, ste_rule, with_id, without_id};

use answers::Outcome;
use bit_fields::{both, field, in_bits};
use fields::Ste;
use ids::SubstreamId;
use registers::Registers;

pub mod fields;

// Step 3: a stage that Config asks for and the SMMU does not have.
#[tactic(auto, unfolding(crate::specs::StreamEntry::not_there))]
fn not_there(registers: Registers, config: u64) -> bool
    ensures { result ≡ not_there registers config }
{
    if both(field(config, 0, 1) == 1, registers.s1p() == 0) {
        return true;
    }
    both(field(config, 1, 1) == 1, registers.s2p() == 0)
}

// Step 5: Config 100.
fn bypass(substream: Option<SubstreamId>, address: u64) -> Outcome
    ensures { result ≡ bypass_rule substream address }
{
    match substream {
        None => Outcome::Bypass(address),
        Some(_) => Outcome::Abort(answers::C_BAD_SUBSTREAMID),
    }
}

// Step 6: fields of stage 1 that are not for this SMMU.
fn bad_stage1(registers: Registers, ste: Ste) -> bool
    ensures { result ≡ bad_stage1 registers (descriptor_words ste.entry.descriptor) }
{
    let max = ste.s1_cd_max(registers);
    if registers.ssid_size() < max {
        return true;
    }
    if max == 0 {
        return false;
    }
    let format = ste.s1_fmt();
    if format == 3 {
        return true;
    }
    if both(format != 0, registers.cd2l() == 0) {
        return true;
    }
    ste.s1_dss() == 3
}

// Step 8, with a SubstreamID and a table for so many bits of them (S1CDMax).
#[tactic(auto, unfolding(crate::specs::StreamEntry::with_id))]
fn with_id(bits: u64, ste: Ste, n: u64) -> Result<u32, Outcome>
    requires { bits < 32 }
    ensures { result ≡ with_id bits (descriptor_words ste.entry.descriptor) n }
{
    if bits == 0 {
        return Err(Outcome::Abort(answers::C_BAD_SUBSTREAMID));
    }
    if !in_bits(n, bits) {
        return Err(Outcome::Abort(answers::C_BAD_SUBSTREAMID));
    }
    if both(n == 0, ste.s1_dss() == 2) {
        return Err(Outcome::Abort(answers::F_STREAM_DISABLED));
    }
    Ok(n as u32)
}

// Step 8, without one.
#[tactic(auto, unfolding(crate::specs::StreamEntry::without_id))]
fn without_id(max: u64, ste: Ste, address: u64) -> Result<u32, Outcome>
    ensures { result ≡ without_id max (descriptor_words ste.entry.descriptor) address }
{
    if max == 0 {
        return Ok(0);
    }
    match ste.s1_dss() {
        0 => Err(Outcome::Abort(answers::F_STREAM_DISABLED)),
        1 => Err(Outcome::Bypass(address)),
        _ => Ok(0),
    }
}

// Steps 6 to 8: a stream with stage 1 alone.
fn stage1(
    registers: Registers,
    substream: Option<SubstreamId>,
    address: u64,
    ste: Ste,
) -> Result<u32, Outcome>
    ensures { result ≡ stage1_rule registers substream address (descriptor_words ste.entry.descriptor) }
{
    if bad_stage1(registers, ste) {
        return Err(Outcome::Abort(answers::C_BAD_STE));
    }
    if both(registers.hyp() == 1, ste.strw() != 0) {
        return Err(Outcome::Unserved(answers::STREAM_WORLD));
    }
    let max = ste.s1_cd_max(registers);
    match substream {
        None => without_id(max, ste, address),
        Some(id) => with_id(max, ste, id.number),
    }
}

// What the STE at an address says to a request: how the lookup ends, or the index of the CD that it goes on to.
pub fn read_ste(
    registers: Registers,
    substream: Option<SubstreamId>,
    address: u64,
    ste: Ste,
) -> Result<u32, Outcome>
    ensures { result ≡ ste_rule registers substream address (descriptor_words ste.entry.descriptor) }
{
    if ste.v() == 0 {
        return Err(Outcome::Abort(answers::C_BAD_STE));
    }
    let config = ste.config();
    if config < 4 {
        return Err(Outcome::Quiet);
    }
    if not_there(registers, config) {
        return Err(Outcome::Abort(answers::C_BAD_STE));
    }
    if field(config, 1, 1) == 1 {
        return Err(Outcome::Unserved(answers::STAGE_2));
    }
    if config == 4 {
        return Err(bypass(substream, address));
    }
    stage1(registers, substream, address, ste)
}
