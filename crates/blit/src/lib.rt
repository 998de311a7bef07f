// The blit engine: pixels one by one, line by line, in the direction named.
#![tactic(auto)]

// What a source pixel and a destination pixel make: the source, the two under a raster code, or the source unless it is a key colour.
#[derive(Clone, Copy)]
pub enum Mix {
    Store,
    Raster(u8),
    Key(u16),
}

// Where the source pixels come from: one colour, memory from an address on, or an 8 × 8 pattern at an address, of which a column and a line
// name the first pixel.
#[derive(Clone, Copy)]
pub enum From {
    Colour(u16),
    Memory(u32),
    Pattern(u32, u32, u32),
}

// A blit: its direction (down: negative), bytes of a pixel, line length in bytes, size in pixels, how pixels combine,
// source, and destination address.
#[derive(Clone, Copy)]
pub struct Job {
    pub down: bool,
    pub bytes: usize,
    pub line: usize,
    pub width: usize,
    pub height: usize,
    pub mix: Mix,
    pub from: From,
    pub destination: u32,
}
