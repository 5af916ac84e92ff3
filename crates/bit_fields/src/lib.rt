// Bits of numbers: a field of a word, powers of two, aligning down; and the "and" of two tests.
// Start at `field`.
// Meets specs/Bits.antt, for every number of bits: nothing has to be checked first.
#![tactic(auto)]

ghost use Rattle.std.specs.Prelude.{◌≡◌, ◌&&◌};
ghost use Rattle.bit_fields.specs.Bits.{PartOf, aligned_down, field, high, in_bits, low, power};

// 2^k, and 0 from 64 on, where 64 bits cannot hold it.
pub fn power(k: u64) -> u64
    ensures { result ≡ power k }
{
    if k < 64 { 1 << k } else { 0 }
}

// The k low bits of x: all of x from 64 on.
pub fn low(x: u64, k: u64) -> u64
    ensures { PartOf x (low x k) result }
{
    if k < 64 { x % power(k) } else { x }
}

// x without its k low bits, moved down: 0 from 64 on.
pub fn high(x: u64, k: u64) -> u64
    ensures { PartOf x (high x k) result }
{
    if k < 64 { x >> k } else { 0 }
}

// The bits of x from the lowest on, width of them.
pub fn field(x: u64, lowest: u64, width: u64) -> u64
    ensures { result ≡ field x lowest width }
{
    let above = high(x, lowest);
    low(above, width)
}

// x with its k low bits taken as 0.
pub fn aligned_down(x: u64, k: u64) -> u64
    ensures { PartOf x (aligned_down x k) result }
{
    x - low(x, k)
}

// Whether x is below 2^k.
#[tactic(auto, using(crate::proofs::BitsLaws::in_bits_by))]
pub fn in_bits(x: u64, k: u64) -> bool
    ensures { result ≡ in_bits x k }
{
    high(x, k) == 0
}

// Whether both tests hold. It is `&&` as a function: after an `&&` the two ways join, and what is proved there would be told by the
// prover's own names for them.
pub fn both(a: bool, b: bool) -> bool
    ensures { result ≡ (a && b) }
{
    if a { b } else { false }
}
