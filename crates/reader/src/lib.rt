// The point reader: what a panel point shows, and where that stands in memory.
#![tactic(auto)]

// What the panel is set to: depth, rotation, window flag, and its size.
#[derive(Clone, Copy)]
pub struct Display {
    pub depth: u32,
    pub rotation: u32,
    pub flag: u32,
    pub width: u32,
    pub height: u32,
}

// Where the reader looks: the address of the pixel's byte, and the place of its highest bit there.
#[derive(Clone, Copy)]
pub struct Spot {
    pub address: u64,
    pub bit: u32,
}

// What a panel point shows: the pixel's colour, its byte's address, and the place of its highest bit in that byte.
#[derive(Clone, Copy)]
pub struct Point {
    pub colour: u16,
    pub address: u64,
    pub bit: u32,
}
