// The wear strip (request f of document 02): what a caller asks for, and the answers.
#![tactic(auto)]

// The hours shown, the screen's depth, the upper left corner, the column width, and the two colours.
#[derive(Clone, Copy)]
pub struct Ask {
    pub hours: u32,
    pub depth: u32,
    pub x: u16,
    pub y: u16,
    pub column: u32,
    pub bar: u16,
    pub background: u16,
}

// What is told of a strip: the bytes of its list, and how many host words it has.
#[derive(Clone, Copy)]
pub struct Made {
    pub bytes: u64,
    pub words: u64,
}

// Where a glyph stands: in the site font or in the factory font, from which byte on.
#[derive(Clone, Copy)]
pub enum Glyph {
    Site(u64),
    Factory(u64),
}

// A number's decimal digits, highest first, and how many they are.
#[derive(Clone, Copy)]
pub struct Digits {
    pub count: u32,
    pub digits: [u8; 5],
}
