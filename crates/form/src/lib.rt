// The two forms of a command list (request g of document 02), and turning one into the other.
#![tactic(auto)]

// What turning a list gives back: 0 or why it was refused, and the turned list's length in bytes.
#[repr(C)]
#[derive(Clone, Copy)]
pub struct Turned {
    pub number: u32,
    pub length: u64,
}
