// What the commands on the book do: `open`, `ask`, `notice` and `report`.
use crate::run::Run;
use answers::Refusal;
use book::Reply;
use ids::Request;
use std::fmt::Write;

impl<'a> Run<'a> {
    // Opens the book with today's registers and memory.
    pub fn open(&mut self, slots: u64) {
        let registers = self.registers;
        let said = book::open(&mut *self.book, registers, self.memory.extent(), slots);
        self.says(said, "opened\n");
    }

    // Asks the book, and writes whether the answer was kept, and the answer, by the book's registers.
    pub fn ask(&mut self, request: Request) {
        let asked = book::ask(&mut *self.book, self.memory.lent(), request);
        let registers = book_words::registers_of(&*self.book);
        let (kept, outcome) = match asked.reply {
            Ok(Reply::KeptBefore(outcome)) => ("kept-before ", outcome),
            Ok(Reply::NewlyKept(outcome)) => ("newly-kept ", outcome),
            Ok(Reply::NotKept(outcome)) => ("not-kept ", outcome),
            Err(refusal) => return self.out.refused(refusal),
        };
        let _ = self.out.write_str(kept);
        self.out.answer(registers, outcome, asked.list);
    }

    // Takes a notice that bytes were edited.
    pub fn notice(&mut self, start: u64, length: u64) {
        let said = book::notice(&mut *self.book, start, length);
        self.says(said, "noticed\n");
    }

    // Writes the report. There is room for the longest, 2,860 bytes, as before every line (`make_room`).
    pub fn report(&mut self) {
        match report::report(&*self.book, self.out.rest()) {
            Ok(length) => self.out.advance(length),
            Err(refusal) => self.out.refused(refusal),
        }
    }

    // Writes that a call was done, in these words, or its refusal.
    fn says(&mut self, said: Result<(), Refusal>, done: &str) {
        match said {
            Ok(()) => {
                let _ = self.out.write_str(done);
            }
            Err(refusal) => self.out.refused(refusal),
        }
    }
}
