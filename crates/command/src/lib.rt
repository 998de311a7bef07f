// The command record, and the register values of a command.
#![tactic(auto)]

// A command record's fields; (sx, sy) is a move's source. The last four, the key colour, a pattern's first pixel (px, py) and its address, are the
// long form's.
#[derive(Clone, Copy)]
pub struct Command {
    pub operation: u8,
    pub surface: u8,
    pub raster: u8,
    pub x: u16,
    pub y: u16,
    pub width: u16,
    pub height: u16,
    pub sx: u16,
    pub sy: u16,
    pub colour: u16,
    pub key: u16,
    pub px: u8,
    pub py: u8,
    pub pattern: u32,
}
