// The lines that set something: `register` and `memory`.
use crate::names::register_of;
use crate::reasons::{Reason, both, number_in};
use crate::{MEMORY_HELD, Said};
use memory_image::Extent;

// `register NAME NUMBER`
pub fn register(line: &[u8]) -> Result<Said<'_>, Reason> {
    let named = register_of(words::nth(line, 1)).ok_or(Reason::NoSuchRegister)?;
    let value = number_in(words::nth(line, 2), named.most())?;
    Ok(Said::Register(named, value))
}

// `memory BASE LENGTH`
pub fn memory(line: &[u8]) -> Result<Said<'_>, Reason> {
    let base = number_in(words::nth(line, 1), u64::MAX);
    let length = number_in(words::nth(line, 2), MEMORY_HELD);
    let (base, length) = both(base, length)?;
    Ok(Said::Memory(Extent { base, length }))
}
