// The names that a script uses: commands and registers.

#[derive(Clone, Copy, Debug, PartialEq, Eq)]
pub enum Command {
    Register,
    Memory,
    Write,
    Fill,
    Lookup,
    Part,
    Open,
    Ask,
    Notice,
    Report,
}

impl Command {
    // The fewest and the most words that its line has, its name counted.
    pub(crate) fn words(self) -> (usize, usize) {
        match self {
            Command::Report => (1, 1),
            Command::Open => (2, 2),
            Command::Lookup | Command::Part | Command::Ask => (2, 3),
            Command::Register | Command::Memory | Command::Write | Command::Notice => (3, 3),
            Command::Fill => (4, 4),
        }
    }
}

// The command that a word names, if any.
pub fn command_of(word: &[u8]) -> Option<Command> {
    match word {
        b"register" => Some(Command::Register),
        b"memory" => Some(Command::Memory),
        b"write" => Some(Command::Write),
        b"fill" => Some(Command::Fill),
        b"lookup" => Some(Command::Lookup),
        b"part" => Some(Command::Part),
        b"open" => Some(Command::Open),
        b"ask" => Some(Command::Ask),
        b"notice" => Some(Command::Notice),
        b"report" => Some(Command::Report),
        _ => None,
    }
}

#[derive(Clone, Copy, Debug, PartialEq, Eq)]
pub enum Register {
    Idr0,
    Idr1,
    Idr5,
    Cr0,
    Cr2,
    Gbpa,
    StrtabBase,
    StrtabBaseCfg,
}

impl Register {
    // The largest number that it holds.
    pub(crate) fn most(self) -> u64 {
        match self {
            Register::StrtabBase => u64::MAX,
            _ => (1 << 32) - 1,
        }
    }
}

// The register that a word names, if any.
pub fn register_of(word: &[u8]) -> Option<Register> {
    match word {
        b"idr0" => Some(Register::Idr0),
        b"idr1" => Some(Register::Idr1),
        b"idr5" => Some(Register::Idr5),
        b"cr0" => Some(Register::Cr0),
        b"cr2" => Some(Register::Cr2),
        b"gbpa" => Some(Register::Gbpa),
        b"strtab_base" => Some(Register::StrtabBase),
        b"strtab_base_cfg" => Some(Register::StrtabBaseCfg),
        _ => None,
    }
}
