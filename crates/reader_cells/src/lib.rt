// Colours of pixels that stand side by side in memory, a cell of whole bytes at a time: a byte, at depth 16 two.
#![tactic(auto)]

ghost use Rattle.std.specs.Prelude.{◌≡◌, true, cond, ◌+◌, ◌-◌, ◌≤◌, ◌<◌, length};
ghost use Rattle.record.specs.Lists.{tabulate};
ghost use Rattle.pixel.specs.Depth.{is_depth};
ghost use Rattle.reader.specs.Along.{cell_pixels, cell_bytes, cell_colour, cells_colour, Celled};

// Pixels of a cell.
pub fn cell_pixels(depth: u32) -> usize
    requires { is_depth depth ≡ true }
    ensures { result ≡ cell_pixels depth }
{
    if depth == 16 { 1 } else { (8 / depth) as usize }
}

// Bytes of a cell.
pub fn cell_bytes(depth: u32) -> usize
    requires { is_depth depth ≡ true }
    ensures { result ≡ cell_bytes depth }
{
    if depth == 16 { 2 } else { 1 }
}

// The t-th of n pixels of a cell: from the left, or back from the right.
fn cell_place(back: bool, n: usize, t: usize) -> usize
    requires { t < n }
    ensures { result ≡ cond back (n - 1 - t) t }
{
    if back { n - 1 - t } else { t }
}

// The colours of the cell at an address.
fn fill_cell(depth: u32, memory: &[u8], back: bool, at: usize, cell: &mut [u16])
    requires { (is_depth depth ≡ true) × (at + cell_bytes depth ≤ length memory.now) × (length cell.old ≡ cell_pixels depth) }
    ensures { cell.new ≡ tabulate (length cell.old) (cell_colour depth memory.now back at) }
{
    let n = cell.len();
    for (t, colour) in cell.iter_mut().enumerate() {
        let i = cell_place(back, n, t) as u32;
        *colour = pixel_code::stored_pixel(depth, memory, at, 7 - depth * i);
    }
}

// So many bytes on from an address, or back.
fn away(back: bool, at: usize, way: usize) -> usize
    requires { way ≤ cond back at (18446744073709551615 - at) }
    ensures { result ≡ cond back (at - way) (at + way) }
{
    if back { at - way } else { at + way }
}

// The colours of cells side by side, from the one at an address on, or back. By places and not by `chunks_exact_mut`, whose parts leave no
// fact of what the line holds.
fn fill_cells<const DEPTH: u32>(memory: &[u8], back: bool, at: usize, line: &mut [u16])
    requires { Celled DEPTH (length memory.now) back at (length line.old) }
    ensures { line.new ≡ tabulate (length line.old) (cells_colour DEPTH memory.now back at) }
{
    let pixels = cell_pixels(DEPTH);
    let bytes = cell_bytes(DEPTH);
    for i in 0..line.len() / pixels {
        let from = i * pixels;
        let a = away(back, at, i * bytes);
        fill_cell(DEPTH, memory, back, a, &mut line[from..from + pixels]);
    }
}

// The same at any depth.
pub fn fill_beside(depth: u32, memory: &[u8], back: bool, at: usize, line: &mut [u16])
    requires { Celled depth (length memory.now) back at (length line.old) }
    ensures { line.new ≡ tabulate (length line.old) (cells_colour depth memory.now back at) }
{
    match depth {
        1 => fill_cells::<1>(memory, back, at, line),
        2 => fill_cells::<2>(memory, back, at, line),
        4 => fill_cells::<4>(memory, back, at, line),
        8 => fill_cells::<8>(memory, back, at, line),
        _ => fill_cells::<16>(memory, back, at, line),
    }
}
