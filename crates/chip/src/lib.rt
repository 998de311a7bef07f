// The chip model: registers, and playing a stream over a lent display memory.
#![tactic(auto)]

use refusal::Refused;
use screen::ScreenValues;

// The blit registers 8000h, 8008h, 800Ch, 8010h, 8014h, 8018h, 801Ch, 8020h and 8024h.
#[repr(C)]
#[derive(Clone, Copy, Default)]
pub struct Registers {
    pub control: u32,
    pub command: u32,
    pub source: u32,
    pub destination: u32,
    pub offset: u32,
    pub width: u32,
    pub height: u32,
    pub background: u32,
    pub foreground: u32,
}

// Whether a data word is due, its line, and its index in the line.
#[derive(Clone, Copy, Default)]
pub struct Due {
    pub any: bool,
    pub line: u16,
    pub word: u16,
}

// All registers, and the data that is due.
#[derive(Clone, Copy, Default)]
pub struct Chip {
    pub screen: ScreenValues,
    pub blit: Registers,
    pub due: Due,
}

// What the records of a stream come to: the chip after those that are admitted, and the refusal of the first that is not, at its index.
#[derive(Clone, Copy)]
pub struct Run {
    pub chip: Chip,
    pub refused: Option<Refused>,
}
