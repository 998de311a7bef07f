// The unit: compile, play and read, and what they promise together.
#![tactic(auto)]

use screen::ScreenValues;

// What is told of a drawn list: its stream's length in bytes, and the six screen values.
#[derive(Clone, Copy)]
pub struct Drawn {
    pub length: u64,
    pub values: ScreenValues,
}
