// What a line of a script says: what there is to do, nothing, or why it is wrong. Start at `read`.
// That goes by the line and by where the lent memory lies. Nothing is done here.
#![tactic(auto)]

use edits::{fill, write};
use ids::Request;
use kept::{notice, open};
use memory_image::Extent;
use names::{Command, Register, command_of};
use reasons::Reason;
use requests::request;
use settings::{memory, register};

mod edits;
mod kept;
pub mod names;
pub mod reasons;
mod requests;
mod settings;

// The most bytes of memory that a script can ask for: the program holds so many itself.
pub const MEMORY_HELD: u64 = 65536;

#[derive(Clone, Copy)]
pub enum Said<'a> {
    // An empty line, or a comment.
    Nothing,
    // A register gets a number, below 2^32 for each but STRTAB_BASE.
    Register(Register, u64),
    // The lent memory is to lie there, and is at most MEMORY_HELD long.
    Memory(Extent),
    // The bytes that these pairs say go into the memory from an offset on, so many times.
    Put {
        offset: u64,
        times: u64,
        pairs: &'a [u8],
    },
    Lookup(Request),
    Part(Request),
    // The book is opened with so many slots.
    Open(u64),
    Ask(Request),
    // The bytes from a start on, so many, were edited.
    Notice(u64, u64),
    Report,
}

// What a line says, where the lent memory lies there.
pub fn read(line: &[u8], lent: Extent) -> Result<Said<'_>, Reason> {
    let name = words::nth(line, 0);
    if name.is_empty() || name.starts_with(b"#") {
        return Ok(Said::Nothing);
    }
    let command = command_of(name).ok_or(Reason::NoSuchCommand)?;
    let count = words::count(line);
    let (fewest, most) = command.words();
    if count < fewest {
        return Err(Reason::TooFewWords);
    }
    if most < count {
        return Err(Reason::TooManyWords);
    }
    match command {
        Command::Register => register(line),
        Command::Memory => memory(line),
        Command::Write => write(line, lent),
        Command::Fill => fill(line, lent),
        Command::Lookup => Ok(Said::Lookup(request(line, count)?)),
        Command::Part => Ok(Said::Part(request(line, count)?)),
        Command::Open => open(line),
        Command::Ask => Ok(Said::Ask(request(line, count)?)),
        Command::Notice => notice(line),
        Command::Report => Ok(Said::Report),
    }
}
