// A player that is fed a stream in small blocks (request a of document 02): its state between blocks, and its answers.
#![tactic(auto)]

use chip::{Chip, Registers};

// What is kept between blocks, in plain numbers: every value is a state.
#[repr(C)]
#[derive(Clone, Copy)]
pub struct Player {
    // The screen registers: main start, main offset, window start, window offset, X, Y.
    pub values: [u32; 6],
    // The blit registers.
    pub blit: Registers,
    // Whether a data word is due (0: none), its line, and its index in the line.
    pub due: u32,
    pub line: u16,
    pub word: u16,
    // The bytes of the half-read record, and how many they are.
    pub half: [u8; 7],
    pub held: u8,
    // The records taken, up to 2^64 - 1.
    pub count: u64,
    // Whether an answer is kept (0: none), and its number and place.
    pub kept: u32,
    pub number: u32,
    pub place: u64,
}

// What a block and the end give back, as playing does: number, place and the six screen values.
#[repr(C)]
#[derive(Clone, Copy)]
pub struct Answer {
    pub number: u32,
    pub place: u64,
    pub values: [u32; 6],
}

// The player after a call, and its answer.
#[derive(Drop)]
pub struct Fed {
    pub player: Player,
    pub answer: Answer,
}

// Records on the way: the chip after those that were taken, their count, and the number of the one that was refused, or 0.
#[derive(Clone, Copy)]
pub struct Taking {
    pub chip: Chip,
    pub count: u64,
    pub number: u32,
}
