// Where a run stands, from line to line. Start at `take`.
use crate::memory::Held;
use book_words::BOOK_WORDS;
use lines::text::Text;
use registers::Registers;
use script::reasons::Reason;
use std::io::{self, ErrorKind, Write};
use std::rt::Stdout;

// What a run holds.
#[derive(Drop)]
pub struct Run<'a> {
    // Where lines are written, and those that wait.
    stdout: Stdout,
    pub out: Text<'a>,
    pub registers: Registers,
    pub memory: Held<'a>,
    pub book: &'a mut [u64; BOOK_WORDS],
    // The number of the line that is being read.
    number: u64,
    ended: bool,
}

// No command writes more bytes at once.
const LONGEST: usize = 8192;

impl<'a> Run<'a> {
    // Where a run begins: every register 0, and no memory.
    pub fn new(
        stdout: Stdout,
        memory: Held<'a>,
        book: &'a mut [u64; BOOK_WORDS],
        out: Text<'a>,
    ) -> Self {
        Run {
            stdout,
            out,
            registers: Registers {
                idr0: 0,
                idr1: 0,
                idr5: 0,
                cr0: 0,
                cr2: 0,
                gbpa: 0,
                strtab_base: 0,
                strtab_base_cfg: 0,
            },
            memory,
            book,
            number: 1,
            ended: false,
        }
    }

    pub fn has_ended(&self) -> bool {
        self.ended
    }

    // Takes one byte: it ends the line, or goes to its end. Nothing is taken once the run has ended.
    pub fn take(&mut self, line: &mut Text, byte: u8) {
        if self.ended {
            return;
        }
        if byte == b'\n' {
            self.finish_line(line);
        } else if line.room() == 0 {
            self.wrong(Reason::LineTooLong);
        } else {
            line.push(byte);
        }
    }

    // Does the line that has ended, and goes on to the next. Past 2^64 lines their number stays.
    pub fn finish_line(&mut self, line: &mut Text) {
        self.make_room();
        self.does(words::without_return(line.filled()));
        line.clear();
        self.number = self.number.saturating_add(1);
    }

    // Says what is wrong, writes what waits, and ends the run.
    pub fn wrong(&mut self, reason: Reason) {
        self.make_room();
        self.out.wrong(self.number, reason);
        self.flush();
        self.ended = true;
    }

    // Writes what waits. The run ends where it cannot be written.
    pub fn flush(&mut self) {
        let mut stdout = self.stdout;
        if write_whole(&mut stdout, self.out.filled()).is_err() {
            self.ended = true;
        }
        self.out.clear();
    }

    // Writes what waits where what a command writes might no longer fit after it.
    fn make_room(&mut self) {
        if self.out.room() < LONGEST {
            self.flush();
        }
    }
}

// Writes all of the bytes, or stops at the first write that takes nothing or fails. (The library's
// `write_all` tries a write that was interrupted again.)
pub fn write_whole<W: Write>(to: &mut W, bytes: &[u8]) -> io::Result<()> {
    let mut rest = bytes;
    while !rest.is_empty() {
        match to.write(rest)? {
            0 => return Err(ErrorKind::WriteZero.into()),
            n => rest = &rest[n..],
        }
    }
    Ok(())
}
