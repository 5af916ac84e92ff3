// Why a line is wrong. Start at `Reason`.
use std::fmt;
use words::numbers::{NumberError, is_pairs, number};

// The reasons stand in the order in which they apply: of two that a line gives, the lesser is the line's.
#[derive(Clone, Copy, Debug, PartialEq, Eq, PartialOrd, Ord)]
pub enum Reason {
    LineTooLong,
    NoSuchCommand,
    TooFewWords,
    TooManyWords,
    NoSuchRegister,
    NotANumber,
    NumberTooLarge,
    NotPairs,
    OutsideMemory,
}

impl fmt::Display for Reason {
    fn fmt<W: fmt::Write>(&self, f: &mut fmt::Formatter<W>) -> fmt::Result {
        f.write_str(match *self {
            Reason::LineTooLong => "the line is too long",
            Reason::NoSuchCommand => "no such command",
            Reason::TooFewWords => "too few words",
            Reason::TooManyWords => "too many words",
            Reason::NoSuchRegister => "no such register",
            Reason::NotANumber => "not a number",
            Reason::NumberTooLarge => "the number is too large",
            Reason::NotPairs => "not pairs of hexadecimal digits",
            Reason::OutsideMemory => "outside the memory",
        })
    }
}

impl From<NumberError> for Reason {
    fn from(error: NumberError) -> Self {
        match error {
            NumberError::TooLarge => Reason::NumberTooLarge,
            NumberError::NotANumber => Reason::NotANumber,
        }
    }
}

// Both values, or of their reasons the one that applies.
pub(crate) fn both<T: Copy, U: Copy>(
    one: Result<T, Reason>,
    other: Result<U, Reason>,
) -> Result<(T, U), Reason> {
    match (one, other) {
        (Err(a), Err(b)) => Err(a.min(b)),
        _ => Ok((one?, other?)),
    }
}

// The number that a word gives where one of at most `most` is asked for.
pub fn number_in(word: &[u8], most: u64) -> Result<u64, Reason> {
    let n = number(word)?;
    if most < n {
        return Err(Reason::NumberTooLarge);
    }
    Ok(n)
}

// The word where bytes are asked for.
pub(crate) fn pairs_in(word: &[u8]) -> Result<&[u8], Reason> {
    if is_pairs(word) {
        Ok(word)
    } else {
        Err(Reason::NotPairs)
    }
}
