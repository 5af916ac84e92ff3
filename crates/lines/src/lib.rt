// The lines that the monitor writes, put at the end of a text. Start at `answer`. What stands in an answer's
// line is in `answer`.
#![tactic(auto)]

use answer::{List, What};
use answers::{Outcome, Pieces, Refusal};
use registers::Registers;
use script::reasons::Reason;
use std::fmt::Write;
use text::Text;

mod answer;
pub mod text;

const DIGITS: &[u8; 16] = b"0123456789abcdef";

impl<'a> Text<'a> {
    // A refusal's line.
    pub fn refused(&mut self, refusal: Refusal) {
        let number = refusal.number();
        let _ = writeln!(self, "refused {number}");
    }

    // An answer's line: the outcome and the list.
    pub fn answer(&mut self, registers: Registers, outcome: Outcome, list: Pieces) {
        let what = What { registers, outcome };
        let list = List(list);
        let _ = writeln!(self, "{what} {list}");
    }

    // The line of an STE that is handed back, of all its bytes. Two digits looked up: `{byte:02x}` took six times the instructions.
    pub fn part(&mut self, ste: &[u8]) {
        self.put(b"part ");
        if ste.is_empty() {
            self.put(b"empty");
        }
        for byte in ste {
            self.push(DIGITS[(byte / 16) as usize]);
            self.push(DIGITS[(byte % 16) as usize]);
        }
        self.put(b"\n");
    }

    // The line that says what is wrong with the line of the script with that number.
    pub fn wrong(&mut self, line: u64, reason: Reason) {
        let _ = writeln!(self, "line {line}: {reason}");
    }
}
