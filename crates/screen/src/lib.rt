// The screen record, and the six screen register values.
#![tactic(auto)]

// Bytes of display memory of the S1D13A05.
pub const MEMORY_SIZE: u64 = 262144;

// The small window: its image's base, its place in the view, its size, and its image's line length in pixels (0: the shown width).
#[derive(Clone, Copy)]
pub struct Window {
    pub base: u32,
    pub x: u16,
    pub y: u16,
    pub width: u16,
    pub height: u16,
    pub line: u16,
}

// A screen record's fields. The line is the main image's line length in pixels (0: the shown width).
#[derive(Clone, Copy)]
pub struct Screen {
    pub depth: u8,
    pub rotation: u8,
    pub flag: u8,
    pub width: u16,
    pub height: u16,
    pub base: u32,
    pub line: u16,
    pub window: Window,
}

// An image in display memory: its base, its line length in bytes, and the pixels that it shows.
#[derive(Clone, Copy)]
pub struct Image {
    pub base: u32,
    pub line: u32,
    pub width: u16,
    pub height: u16,
}

// An image's start and line offset registers, in dwords.
#[derive(Clone, Copy, Default)]
pub struct Origin {
    pub start: u64,
    pub offset: u64,
}

// The six screen register values.
#[derive(Clone, Copy, Default)]
pub struct ScreenValues {
    pub main: Origin,
    pub window: Origin,
    pub x: u64,
    pub y: u64,
}
