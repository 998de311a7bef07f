// Compiling a screen record, a command list and host words into a lent stream buffer.
#![tactic(auto)]

// What is told of a compiled stream: its length in bytes, and the screen's depth, rotation and flag.
#[derive(Clone, Copy)]
pub struct Compiled {
    pub length: u64,
    pub depth: u32,
    pub rotation: u32,
    pub flag: u32,
}

// Where the refused command stands in the list, in bytes, and its length; 0 and 0 where no command is refused.
#[derive(Clone, Copy)]
pub struct Part {
    pub at: u64,
    pub length: u64,
}
