// Pixels in memory, and raster codes.
#![tactic(auto)]

// What a raster code makes of each pair of bits, all over a pixel: all ones or 0 for neither bit set, for the destination's
// alone, for the source's alone, and for both.
#[derive(Clone, Copy)]
pub struct Masks {
    pub neither: u16,
    pub destination: u16,
    pub source: u16,
    pub both: u16,
}
