// What a CD says. Start at `read_cd`. It is compiled into its one caller, which has tested where the CD lies: by itself it would
// test that again at each word.
// Meets specs/ContextEntry.antt; a CD and its fields are in fields.rt.
#![tactic(auto)]

ghost use Rattle.std.specs.Prelude.{◌≡◌};
ghost use Rattle.memory_image.specs.Descriptor.{descriptor_words};
ghost use Rattle.context_entry.specs.ContextEntry.{cd_rule, effective_ips, first_half, granule0, granule_there, half_fits, translated, vmsa32_rule};

use answers::{Outcome, Translation};
use bit_fields::{field, in_bits};
use fields::Cd;
use registers::Registers;

pub mod fields;

// The size of a page of tables. TG0 has a code that means none, and a CD with it is bad only where its half is used: so it
// is a value like the others.
#[derive(Clone, Copy)]
pub enum Granule {
    Size4K,
    Size16K,
    Size64K,
    Reserved,
}

// What a CD says of one half of the address space.
#[derive(Clone, Copy)]
pub struct Half {
    pub granule: Granule,
    pub tsz: u64,
    pub ttb: u64,
}

// TG0's coding.
#[tactic(auto, unfolding(crate::specs::ContextEntry::granule0))]
fn granule_of(code: u64) -> Granule
    ensures { result ≡ granule0 code }
{
    match code {
        0 => Granule::Size4K,
        1 => Granule::Size64K,
        2 => Granule::Size16K,
        _ => Granule::Reserved,
    }
}

// Whether IDR5 has a granule.
#[tactic(auto, unfolding(crate::specs::ContextEntry::granule_there))]
fn granule_there(registers: Registers, granule: Granule) -> bool
    ensures { result ≡ granule_there registers granule }
{
    match granule {
        Granule::Size4K => registers.gran4k() == 1,
        Granule::Size16K => registers.gran16k() == 1,
        Granule::Size64K => registers.gran64k() == 1,
        Granule::Reserved => false,
    }
}

// The effective IPS, in bits.
#[tactic(auto, unfolding(crate::specs::ContextEntry::effective_ips))]
#[inline(always)]
fn effective_ips(registers: Registers, code: u64) -> u64
    ensures { result ≡ effective_ips registers code }
{
    let oas = registers.oas_size();
    if code == 7 {
        return oas;
    }
    registers::size_of(code).min(oas)
}

// The granule and range rule, of either half.
#[tactic(auto, unfolding(crate::specs::ContextEntry::half_fits))]
#[inline(always)]
fn half_fits(registers: Registers, bits: u64, half: Half) -> bool
    ensures { result ≡ half_fits registers bits half }
{
    if !granule_there(registers, half.granule) {
        return false;
    }
    if half.tsz < 16 {
        return false;
    }
    if 39 < half.tsz {
        return false;
    }
    in_bits(half.ttb, bits)
}

// The half of the address space that TTB0 is for.
#[inline(always)]
fn first_half(cd: Cd) -> Half
    ensures { result ≡ first_half (descriptor_words cd.entry.descriptor) }
{
    Half {
        granule: granule_of(cd.tg0()),
        tsz: cd.t0sz(),
        ttb: cd.ttb0(),
    }
}

// An accepted CD's fields, with where it and its STE were found.
#[inline(always)]
fn translation(registers: Registers, ste: u64, address: u64, cd: Cd) -> Translation
    ensures { result ≡ translated registers ste address (descriptor_words cd.entry.descriptor) }
{
    Translation {
        ste,
        cd: address,
        asid: cd.asid(),
        t0sz: cd.t0sz(),
        tg0: cd.tg0(),
        epd0: cd.epd0(),
        ips: effective_ips(registers, cd.ips()),
        ttb0: cd.ttb0(),
    }
}

// AA64 0.
#[tactic(auto, unfolding(crate::specs::ContextEntry::vmsa32_rule))]
fn vmsa_32(registers: Registers) -> Outcome
    ensures { result ≡ vmsa32_rule registers }
{
    if field(registers.ttf(), 0, 1) == 1 {
        Outcome::Unserved(answers::VMSA_32)
    } else {
        Outcome::Abort(answers::C_BAD_CD)
    }
}

// What the CD at an address says for the STE at another.
#[tactic(auto, unfolding(crate::specs::ContextEntry::cd_rule))]
#[inline(always)]
pub fn read_cd(registers: Registers, ste: u64, address: u64, cd: Cd) -> Outcome
    ensures { result ≡ cd_rule registers ste address (descriptor_words cd.entry.descriptor) }
{
    if cd.v() == 0 {
        return Outcome::Abort(answers::C_BAD_CD);
    }
    if cd.aa64() == 0 {
        return vmsa_32(registers);
    }
    if field(registers.ttf(), 1, 1) == 0 {
        return Outcome::Abort(answers::C_BAD_CD);
    }
    let found = translation(registers, ste, address, cd);
    if cd.epd0() == 1 {
        return Outcome::Translate(found);
    }
    if half_fits(registers, found.ips, first_half(cd)) {
        return Outcome::Translate(found);
    }
    Outcome::Abort(answers::C_BAD_CD)
}
