// Numbers and records in bytes: the stream record.
#![tactic(auto)]

// A stream record: a register number, or 10000h for a host data word, and a value.
#[derive(Clone, Copy)]
pub struct Record {
    pub number: u32,
    pub value: u32,
}
