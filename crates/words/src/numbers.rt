// Numbers, decimal or `0x` and hexadecimal, and bytes as pairs of hexadecimal digits.
// Start at `number` and `is_pairs`. Meets specs/Numbers.antt.
ghost use Rattle.std.specs.Prelude.{◌≡◌, ◌≤◌, ◌<◌, ◌%◌};
ghost use Rattle.words.specs.Numbers.{are_digits, digit_of, digits_rule, is_pairs, number_rule, pair_rule, pushed_rule};

// Why a word is no number of 64 bits.
#[derive(Clone, Copy, Debug, PartialEq, Eq)]
pub enum NumberError {
    // 2^64 or more.
    TooLarge,
    NotANumber,
}

// Digits in base 10, or `0x` and digits in base 16, one at least.
#[tactic(auto, using(crate::proofs::NumbersLaws::number_decimal, crate::proofs::NumbersLaws::number_hex))]
pub fn number(word: &[u8]) -> Result<u64, NumberError>
    ensures { result ≡ number_rule word.now }
{
    match word.strip_prefix(b"0x") {
        Some(hexadecimal) => digits(hexadecimal, 16),
        None => digits(word, 10),
    }
}

// A word of digits in the base, as a number. A byte that is no digit makes it none, however large the
// digits before it are.
fn digits(word: &[u8], base: u32) -> Result<u64, NumberError>
    requires { (1 < base) × (base ≤ 16) }
    ensures { result ≡ digits_rule base word.now }
{
    if word.is_empty() {
        return Err(NumberError::NotANumber);
    }
    let mut value = Ok(0);
    for byte in word {
        let digit = (*byte as char)
            .to_digit(base)
            .ok_or(NumberError::NotANumber)?;
        value = pushed(value, base, digit);
    }
    value
}

// The number with one digit more.
fn pushed(value: Result<u64, NumberError>, base: u32, digit: u32) -> Result<u64, NumberError>
    ensures { result ≡ pushed_rule value base digit }
{
    value?
        .checked_mul(base as u64)
        .and_then(|above| above.checked_add(digit as u64))
        .ok_or(NumberError::TooLarge)
}

// Whether a word is pairs of hexadecimal digits, one pair at least.
pub fn is_pairs(word: &[u8]) -> bool
    ensures { result ≡ is_pairs word.now }
{
    !word.is_empty() && word.len() % 2 == 0 && are_digits(word)
}

// Whether each byte is a hexadecimal digit.
fn are_digits(word: &[u8]) -> bool
    ensures { result ≡ are_digits word.now }
{
    word.iter().all(|byte| byte.is_ascii_hexdigit())
}

// The byte that the pair with that number says, counted from 0; 0 where there is none. A byte that is no
// digit counts as 0.
#[tactic(auto, using(crate::proofs::NumbersLaws::pair_none, crate::proofs::NumbersLaws::pair_there))]
pub fn pair(word: &[u8], k: usize) -> u8
    ensures { result ≡ pair_rule word.now k }
{
    if word.len() / 2 <= k {
        return 0;
    }
    digit(word[2 * k]) * 16 + digit(word[2 * k + 1])
}

// The value of a hexadecimal digit of either case, and 0 for any other byte.
fn digit(byte: u8) -> u8
    ensures { result ≡ digit_of byte % 16 }
{
    (byte as char).to_digit(16).unwrap_or(0) as u8
}
