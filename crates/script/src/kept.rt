// The lines on the book that name no request: `open` and `notice`. `report` has no word but its name.
use crate::Said;
use crate::reasons::{Reason, both, number_in};

// `open SLOTS`
pub fn open(line: &[u8]) -> Result<Said<'_>, Reason> {
    let slots = number_in(words::nth(line, 1), u64::MAX)?;
    Ok(Said::Open(slots))
}

// `notice START LENGTH`
pub fn notice(line: &[u8]) -> Result<Said<'_>, Reason> {
    let start = number_in(words::nth(line, 1), u64::MAX);
    let length = number_in(words::nth(line, 2), u64::MAX);
    let (start, length) = both(start, length)?;
    Ok(Said::Notice(start, length))
}
