// The chip's walk from its registers to a panel point.
#![tactic(auto)]

// A place that the walk comes to: the dword up − down, and the pixel in it.
#[derive(Clone, Copy)]
pub struct Place {
    pub up: u64,
    pub down: u64,
    pub pixel: u64,
}

// Columns of a panel line: from `from` on, up to `to`, which is not one of them.
#[derive(Clone, Copy)]
pub struct Columns {
    pub from: u32,
    pub to: u32,
}

// A walk along a panel line by steps: its first pixel has ahead − behind bits of memory before it, and each next one so many more, or, back, so
// many fewer.
#[derive(Clone, Copy)]
pub struct Steps {
    pub ahead: u64,
    pub behind: u64,
    pub step: u64,
    pub back: bool,
}
