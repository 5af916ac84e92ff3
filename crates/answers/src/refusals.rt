// The refusals, by their rows and their numbers. Meets specs/Refusals.antt.
ghost use Rattle.std.specs.Prelude.{◌≡◌};
ghost use Rattle.answers.specs.Refusals.{refusal_number};

// Why a call says no. The numbers are those that a C caller is told.
#[derive(Clone, Copy, PartialEq, Eq)]
pub enum Refusal {
    // A register names a size that there is not: OAS is 7, SIDSIZE above 32, or SSIDSIZE above 20.
    Registers = 1,
    // The memory does not lie as it may.
    Memory = 2,
    // A SubstreamID is given and is 2^20 or more.
    Substream = 3,
    // A book is opened with a number of slots that it can't have.
    Slots = 4,
    // A notice goes past the top of all addresses.
    Notice = 5,
    // The memory is not the one that the book was opened with.
    OtherMemory = 6,
    // The book's words are not those of a book.
    Malformed = 7,
    // The report's buffer is shorter than its text.
    Room = 8,
}

impl Refusal {
    pub fn number(self) -> u64
        ensures { result ≡ refusal_number self }
    {
        self as u64
    }
}
