// The line reader: what a whole panel line shows.
#![tactic(auto)]

ghost use Rattle.std.specs.Prelude.{◌≡◌, true, cond, ◌+◌, ◌-◌, ◌*◌, ◌/◌, ◌%◌, ◌≤◌, ◌<◌, length};
ghost use Rattle.std.proofs.lemmas.List.Edits.{sets};
ghost use Rattle.record.specs.Lists.{tabulate};
ghost use Rattle.pixel.specs.Depth.{is_depth};
ghost use Rattle.pixel.specs.Pixel.{stored_pixel};
ghost use Rattle.refusal.specs.Number.{number_of};
ghost use Rattle.screen.specs.Screen.{memory_size};
ghost use Rattle.view.specs.Steps.{window_columns};
ghost use Rattle.reader.specs.Line.{line_number, line_after};
ghost use Rattle.reader.specs.Looking.{looking};
ghost use Rattle.reader.specs.Along.{Walkable, OneSide, all_inside, colours_from, step_inside, step_colour, Near, Readable, Fillable, cell_bytes, beside};

use reader::{Display, Spot};
use refusal::Refusal;
use screen::{MEMORY_SIZE, ScreenValues};
use view::{Columns, Steps};

// Whether the dword after j steps is one of a memory of so many bytes.
fn is_inside(size: u64, s: Steps, j: u32) -> bool
    requires { Near s }
    ensures { result ≡ step_inside size s j }
{
    let way = j as u64 * s.step;
    let (ahead, behind) = if s.back {
        (s.ahead, s.behind + way)
    } else {
        (s.ahead + way, s.behind)
    };
    (behind <= ahead) & (record_code::minus(ahead, behind) / 32 < size / 4)
}

// Whether the dwords of the columns from `from` up to `to`, on one side of the window's edges, are all in a memory of so many bytes: those of
// the first and of the last decide.
fn is_run_inside(size: u64, d: Display, values: ScreenValues, q: u32, from: u32, to: u32) -> bool
    requires { Walkable d values × OneSide d values q from (to - from) }
    ensures { result ≡ all_inside size d values q from (to - from) }
{
    if to <= from {
        return true;
    }
    let s = view_code::steps_from(d.depth, d.rotation, d.flag, values, from, q);
    is_inside(size, s, 0) & is_inside(size, s, to - from - 1)
}

// The colour of the pixel with so many bits of memory before it.
fn colour_after(depth: u32, memory: &[u8], bits: u64) -> u16
    requires { (is_depth depth ≡ true) × Readable depth (length memory.now) bits }
    ensures { result ≡ stored_pixel depth memory.now (bits / 8) (7 - bits % 8) }
{
    pixel_code::stored_pixel(depth, memory, (bits / 8) as usize, 7 - (bits % 8) as u32)
}

// The bits before the next pixel.
fn next_bits(s: Steps, bits: u64) -> u64
    requires { Near s × (bits ≤ 1125899906842624) }
    ensures { result ≡ cond s.back (bits - s.step) (bits + s.step) }
{
    if s.back {
        record_code::minus(bits, s.step)
    } else {
        bits + s.step
    }
}

// Fills a line with the colours of pixels that stand a step apart.
fn fill_by(depth: u32, memory: &[u8], s: Steps, line: &mut [u16])
    requires { Fillable depth (length memory.now) s (length line.old) }
    ensures { line.new ≡ tabulate (length line.old) (step_colour depth memory.now s) }
{
    let mut bits = record_code::minus(s.ahead, s.behind);
    for colour in line.iter_mut() {
        *colour = colour_after(depth, memory, bits);
        bits = next_bits(s, bits);
    }
}

// The bits before the first pixel of a cell, or back before its last.
fn edge_bits(depth: u32, back: bool) -> u64
    requires { is_depth depth ≡ true }
    ensures { result ≡ cond back (8 * cell_bytes depth - depth) 0 }
{
    if back {
        record_code::minus(8 * reader_cells::cell_bytes(depth) as u64, depth as u64)
    } else {
        0
    }
}

// Whether n pixels stand side by side and are whole bytes, as at 0 and 180 degrees they always are.
fn is_beside(depth: u32, s: Steps, n: usize) -> bool
    requires { (is_depth depth ≡ true) × (n ≤ 4294967296) }
    ensures { result ≡ beside depth s n }
{
    let bits = record_code::minus(s.ahead, s.behind);
    let whole = n as u64 * depth as u64 % 8 == 0;
    (s.step == depth as u64) & (whole & (bits % 8 == edge_bits(depth, s.back)))
}

// Fills a line with the colours of its columns, from panel column `from` on, on one side of the window's edges.
fn fill_run(d: Display, values: ScreenValues, q: u32, from: u32, memory: &[u8], line: &mut [u16])
    requires { Walkable d values × (OneSide d values q from (length line.old) × ((length line.old ≤ 4294967296) × (all_inside (length memory.now) d values q from (length line.old) ≡ true))) }
    ensures { line.new ≡ colours_from d values q memory.now from (length line.old) }
{
    if line.is_empty() {
        return;
    }
    let s = view_code::steps_from(d.depth, d.rotation, d.flag, values, from, q);
    if is_beside(d.depth, s, line.len()) {
        let bits = record_code::minus(s.ahead, s.behind);
        reader_cells::fill_beside(d.depth, memory, s.back, (bits / 8) as usize, line);
        return;
    }
    fill_by(d.depth, memory, s, line);
}

// Whether the dwords of all columns of panel line q are in a memory of so many bytes: left of the window's columns, among them, and right of them.
fn is_line_inside(size: u64, d: Display, values: ScreenValues, q: u32, c: Columns) -> bool
    requires { Walkable d values × (c ≡ window_columns d.depth d.rotation d.flag values d.width q) }
    ensures { result ≡ all_inside size d values q 0 d.width }
{
    let left = is_run_inside(size, d, values, q, 0, c.from);
    let middle = is_run_inside(size, d, values, q, c.from, c.to);
    let right = is_run_inside(size, d, values, q, c.to, d.width);
    left & (middle & right)
}

// Fills the columns from `from` up to `to` of a line, on one side of the window's edges.
fn fill_part(
    d: Display,
    values: ScreenValues,
    q: u32,
    from: u32,
    to: u32,
    memory: &[u8],
    line: &mut [u16],
)
    requires { Walkable d values × (OneSide d values q from (to - from) × ((from ≤ to) × ((to ≤ length line.old) × (all_inside (length memory.now) d values q from (to - from) ≡ true)))) }
    ensures { line.new ≡ sets line.old from (colours_from d values q memory.now from (to - from)) }
{
    fill_run(
        d,
        values,
        q,
        from,
        memory,
        &mut line[from as usize..to as usize],
    );
}

// Fills a line with the colours of all columns: left of the window's columns, among them, and right of them.
fn fill_line(d: Display, values: ScreenValues, q: u32, c: Columns, memory: &[u8], line: &mut [u16])
    requires { Walkable d values × ((c ≡ window_columns d.depth d.rotation d.flag values d.width q) × ((length line.old ≡ d.width) × (all_inside (length memory.now) d values q 0 d.width ≡ true))) }
    ensures { line.new ≡ colours_from d values q memory.now 0 d.width }
{
    fill_part(d, values, q, 0, c.from, memory, line);
    fill_part(d, values, q, c.from, c.to, memory, line);
    fill_part(d, values, q, c.to, d.width, memory, line);
}

// What panel line q shows in a memory of so many bytes, from where the point reader looks for its column 0: the line is filled, a colour for
// each panel column; or the first refusal, and it is as it was. All checks but 25 are those of column 0; the window's columns are found
// once, and the walk goes by steps.
pub fn read_line_from(
    at: Result<Spot, Refusal>,
    size: u64,
    d: Display,
    values: ScreenValues,
    q: u32,
    memory: &[u8],
    line: &mut [u16],
) -> Result<(), Refusal>
    requires { at ≡ looking size d values 0 q (length memory.now) }
    ensures value { number_of result ≡ line_number size d values q memory.now (length line.old) }
    ensures line_after { line.new ≡ line_after size d values q memory.now line.old }
{
    at?;
    let c = view_code::window_columns(d.depth, d.rotation, d.flag, values, d.width, q);
    let inside = is_line_inside(size, d, values, q, c);
    let whole = line.len() == d.width as usize;
    if !inside {
        return Err(Refusal::Address);
    }
    if !whole {
        return Err(Refusal::Room);
    }
    fill_line(d, values, q, c, memory, line);
    Ok(())
}

// What panel line q shows in a memory of so many bytes.
pub fn read_line_in(
    size: u64,
    d: Display,
    values: ScreenValues,
    q: u32,
    memory: &[u8],
    line: &mut [u16],
) -> Result<(), Refusal>
    ensures value { number_of result ≡ line_number size d values q memory.now (length line.old) }
    ensures line_after { line.new ≡ line_after size d values q memory.now line.old }
{
    let at = reader_code::look_for(size, d, values, 0, q, memory.len() as u64);
    read_line_from(at, size, d, values, q, memory, line)
}

// The same in the S1D13A05's memory, as the unit's users call it.
pub fn read_line(
    d: Display,
    values: ScreenValues,
    q: u32,
    memory: &[u8],
    line: &mut [u16],
) -> Result<(), Refusal>
    ensures value { number_of result ≡ line_number memory_size d values q memory.now (length line.old) }
    ensures line_after { line.new ≡ line_after memory_size d values q memory.now line.old }
{
    read_line_in(MEMORY_SIZE, d, values, q, memory, line)
}
