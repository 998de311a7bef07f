// What the C library gives back (include/s1d.h): numbers alone, the same for both chips.
#![tactic(auto)]

// What compiling gives back, and where the refused command stands in the list.
#[repr(C)]
#[derive(Drop)]
pub struct S1dCompiled {
    pub number: u32,
    pub place: u64,
    pub length: u64,
    pub depth: u32,
    pub rotation: u32,
    pub flag: u32,
    pub part_at: u64,
    pub part_length: u64,
}

// What the point reader gives back: the pixel's colour, its byte's address, and the place of its highest bit in that byte.
#[repr(C)]
#[derive(Drop)]
pub struct S1dPoint {
    pub number: u32,
    pub colour: u32,
    pub address: u32,
    pub bit: u32,
}

// What drawing gives back: compiling's length and playing's values.
#[repr(C)]
#[derive(Drop)]
pub struct S1dDrawn {
    pub number: u32,
    pub place: u64,
    pub length: u64,
    pub values: [u32; 6],
}

// The six screen values.
#[repr(C)]
#[derive(Drop)]
pub struct S1dValues {
    pub values: [u32; 6],
}

// What is told of an hour: whether it has a sample (1, else 0), and its height.
#[repr(C)]
#[derive(Drop)]
pub struct S1dHour {
    pub number: u32,
    pub sampled: u32,
    pub height: u32,
}

// What making a strip gives back: the list's length in bytes, and how many words there are.
#[repr(C)]
#[derive(Drop)]
pub struct S1dStrip {
    pub number: u32,
    pub list_length: u64,
    pub words_length: u64,
}

// Where a digit's glyph stands: in the site font (1) or the factory font (0), from which byte on, and its bytes.
#[repr(C)]
#[derive(Drop)]
pub struct S1dGlyph {
    pub number: u32,
    pub site: u32,
    pub at: u64,
    pub length: u64,
}
