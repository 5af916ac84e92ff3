// What each command does to a run. Start at `does`. Those on the book are in `kept`.
use crate::run::Run;
use ids::Request;
use registers::Registers;
use script::Said;
use script::names::Register;

impl<'a> Run<'a> {
    // Does what a line says. A new command has a case here, and one in `script`.
    pub fn does(&mut self, text: &[u8]) {
        match script::read(text, self.memory.extent()) {
            Ok(Said::Nothing) => {}
            Ok(Said::Register(named, number)) => set(&mut self.registers, named, number),
            Ok(Said::Memory(extent)) => self.memory.lend(extent),
            Ok(
                Said::Put {
                    offset,
                    times,
                    pairs,
                },
            ) => self.memory.put(offset, times, pairs),
            Ok(Said::Lookup(request)) => self.lookup(request),
            Ok(Said::Part(request)) => self.part(request),
            Ok(Said::Open(slots)) => self.open(slots),
            Ok(Said::Ask(request)) => self.ask(request),
            Ok(Said::Notice(start, length)) => self.notice(start, length),
            Ok(Said::Report) => self.report(),
            Err(reason) => self.wrong(reason),
        }
    }

    // Looks up a request, and writes the answer or the refusal.
    fn lookup(&mut self, request: Request) {
        let registers = self.registers;
        let looked = lookup::lookup(registers, self.memory.lent(), request);
        match looked.answer {
            Err(refusal) => self.out.refused(refusal),
            Ok(outcome) => self.out.answer(registers, outcome, looked.list),
        }
    }

    // Writes the STE that a request reaches.
    fn part(&mut self, request: Request) {
        let ste = lookup::ste_part(self.registers, self.memory.lent(), request);
        self.out.part(ste);
    }
}

// Sets one of the registers. For each but STRTAB_BASE the number is below 2^32 (`script`).
fn set(registers: &mut Registers, named: Register, number: u64) {
    let low = (number % (1 << 32)) as u32;
    match named {
        Register::Idr0 => registers.idr0 = low,
        Register::Idr1 => registers.idr1 = low,
        Register::Idr5 => registers.idr5 = low,
        Register::Cr0 => registers.cr0 = low,
        Register::Cr2 => registers.cr2 = low,
        Register::Gbpa => registers.gbpa = low,
        Register::StrtabBase => registers.strtab_base = number,
        Register::StrtabBaseCfg => registers.strtab_base_cfg = low,
    }
}
