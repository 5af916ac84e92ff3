// The monitor: reads a script on standard input, does what each line says, and writes what it finds to
// standard output. Start at `read_all`. `script` says what a line asks for, and `commands` does it.
#![tactic(auto)]

use book_words::BOOK_WORDS;
use lines::text::Text;
use memory::Held;
use run::{Run, write_whole};
use script::MEMORY_HELD;
use std::io::Read;

mod commands;
mod kept;
mod memory;
mod run;

// The buffers: what was read, the line so far, the lent memory, the book's words, and what waits to be
// written.
fn main(rt: HostRuntime) {
    let mut input = [0u8; 65536];
    let mut line = [0u8; 4096];
    let mut memory = [0u8; MEMORY_HELD as usize];
    let mut book = [0u64; BOOK_WORDS];
    let mut out = [0u8; 65536];
    let mut line = Text::new(&mut line);
    let memory = Held::new(&mut memory);
    let mut run = Run::new(rt.stdout(), memory, &mut book, Text::new(&mut out));
    read_all(rt, &mut input, &mut line, &mut run);
}

// Reads until the script or the run has ended. What waits is written before each read, so that whoever
// types a script sees an answer before the next line. A proved loop has to end, and nothing says that a
// script does, so the reads are counted up to a number that no run uses up.
fn read_all(rt: HostRuntime, input: &mut [u8], line: &mut Text, run: &mut Run) {
    let mut stdin = rt.stdin();
    for _ in 0..u64::MAX {
        run.flush();
        match stdin.read(input) {
            Ok(0) => {
                run.finish_line(line);
                run.flush();
                return;
            }
            Ok(n) => {
                for byte in &input[..n] {
                    run.take(line, *byte);
                }
            }
            Err(_) => {
                unread(rt);
                return;
            }
        }
        if run.has_ended() {
            return;
        }
    }
}

// Says that the script cannot be read. Where that cannot be written either, nothing is left to say.
fn unread(rt: HostRuntime) {
    let mut stderr = rt.stderr();
    let _said = write_whole(&mut stderr, b"monitor: the script cannot be read\n");
}
