// What stands in an answer's line: the outcome, and the list.
use answers::{Outcome, Pieces, Translation};
use registers::Registers;
use std::fmt;

// What is answered, without the list. Whether an event is recorded goes by the registers.
#[derive(Clone, Copy)]
pub struct What {
    pub registers: Registers,
    pub outcome: Outcome,
}

impl fmt::Display for What {
    fn fmt<W: fmt::Write>(&self, f: &mut fmt::Formatter<W>) -> fmt::Result {
        match self.outcome {
            Outcome::Translate(found) => {
                let tables = Tables(found);
                let Translation { ste, cd, asid, .. } = found;
                write!(
                    f,
                    "translate ste 0x{ste:x} cd 0x{cd:x} asid {asid} {tables}"
                )
            }
            Outcome::Bypass(ste) => write!(f, "bypass ste 0x{ste:x}"),
            Outcome::BypassGlobal => f.write_str("bypass global"),
            Outcome::Abort(event) => {
                let abort = self.abort(event);
                write!(f, "{abort}")
            }
            Outcome::Fault(event, wanted) => {
                let abort = self.abort(event);
                write!(f, "{abort} address 0x{wanted:x}")
            }
            Outcome::Quiet => f.write_str("quiet"),
            Outcome::Unserved(case) => write!(f, "unserved {case}"),
        }
    }
}

impl What {
    // An abort with that event, whose number is one byte.
    fn abort(&self, event: u64) -> Abort {
        Abort {
            recorded: answers::is_recorded(self.registers, event),
            event: (event % 256) as u8,
        }
    }
}

// An abort with its event, two upper-case digits.
#[derive(Clone, Copy)]
struct Abort {
    recorded: bool,
    event: u8,
}

impl fmt::Display for Abort {
    fn fmt<W: fmt::Write>(&self, f: &mut fmt::Formatter<W>) -> fmt::Result {
        let word = if self.recorded { "abort" } else { "unrecorded" };
        let event = self.event;
        write!(f, "{word} {event:02X}")
    }
}

// The fields that say how the CD's tables are walked.
#[derive(Clone, Copy)]
struct Tables(Translation);

impl fmt::Display for Tables {
    fn fmt<W: fmt::Write>(&self, f: &mut fmt::Formatter<W>) -> fmt::Result {
        let Translation {
            t0sz,
            tg0,
            epd0,
            ips,
            ttb0,
            ..
        } = self.0;
        write!(
            f,
            "t0sz {t0sz} tg0 {tg0} epd0 {epd0} ips {ips} ttb0 0x{ttb0:x}"
        )
    }
}

// `read` and the list.
#[derive(Clone, Copy)]
pub struct List(pub Pieces);

impl fmt::Display for List {
    fn fmt<W: fmt::Write>(&self, f: &mut fmt::Formatter<W>) -> fmt::Result {
        let list = self.0;
        f.write_str("read")?;
        if list.count == 0 {
            return f.write_str(" -");
        }
        for piece in list.piece.iter().take(list.count as usize) {
            let address = piece.address;
            let length = piece.length;
            write!(f, " 0x{address:x}+{length}")?;
        }
        Ok(())
    }
}
