// Patterns: the rows of an 8 × 8 pattern, read from memory, and source lines that repeat them.
#![tactic(auto)]

ghost use Rattle.std.specs.Prelude.{◌≡◌, ◌+◌, ◌-◌, ◌*◌, ◌%◌, ◌≤◌, ◌<◌, max, length, get_or};
ghost use Rattle.pixel.specs.Pixel.{get_pixel};
ghost use Rattle.blit.specs.Blit.{pixels};
ghost use Rattle.blit.specs.Line.{straight_line};
ghost use Rattle.blit_pattern.specs.Pattern.{row_at, pattern_rows, tiled_lines};

// A row of eight pixels.
fn read_row(memory: &[u8], bytes: usize, at: usize) -> [u16; 8]
    requires { (0 < bytes) × (bytes ≤ 2) × (at + 8 * bytes ≤ length memory.now) }
    ensures { result ≡ row_at bytes memory.now at }
{
    // Not by `array::from_fn`: of each element its contract leaves open what the closure holds, and the proof does not close.
    let mut row = [0u16; 8];
    for u in 0..8 {
        row[u] = pixel_code::get_pixel(memory, bytes, at + u * bytes);
    }
    row
}

// The rows of an 8 × 8 pattern.
pub fn read_pattern(memory: &[u8], bytes: usize, at: usize) -> [[u16; 8]; 8]
    requires { (0 < bytes) × (bytes ≤ 2) × (at + 64 * bytes ≤ length memory.now) }
    ensures { result ≡ pattern_rows bytes memory.now at }
{
    let mut rows = [[0u16; 8]; 8];
    for v in 0..8 {
        rows[v] = read_row(memory, bytes, at + v * (8 * bytes));
    }
    rows
}

// The first sixteen pixels of a line that repeats a row, from column x of it on.
fn first_pixels<const BYTES: usize>(row: [u16; 8], x: usize, line: &mut [u8])
    requires { (0 < BYTES) × (BYTES ≤ 2) × (x < 8) × (16 * BYTES ≤ length line.old) }
    ensures { line.new ≡ straight_line BYTES (λ s d. s) (λ i. get_or row ((x + i) % 8) 0) 16 line.old }
{
    for i in 0..16 {
        let v = row[(x + i) % 8];
        pixel_code::put_pixel(line, BYTES, i * BYTES, v);
    }
}

// The pixels of a line from the sixteenth on, each the one sixteen before it.
fn repeat_pixels<const BYTES: usize>(line: &mut [u8], width: usize)
    requires { (0 < BYTES) × (BYTES ≤ 2) × (width * BYTES ≤ length line.old) }
    ensures { line.new ≡ pixels BYTES (λ s d. s) (λ i. (16 + i) * BYTES) (λ m i. get_pixel BYTES m (i * BYTES)) (width - 16) line.old }
{
    for i in 16..width {
        let v = pixel_code::get_pixel(line, BYTES, (i - 16) * BYTES);
        pixel_code::put_pixel(line, BYTES, i * BYTES, v);
    }
}

// A line that repeats a row, the bytes of a pixel being a constant of its loops.
fn tile_pixels<const BYTES: usize>(row: [u16; 8], x: usize, width: usize, line: &mut [u8])
    requires { (0 < BYTES) × (BYTES ≤ 2) × (x < 8) × (width ≤ 1024) × (2048 ≤ length line.old) }
    ensures { line.new ≡ straight_line BYTES (λ s d. s) (λ i. get_or row ((x + i) % 8) 0) (max 16 width) line.old }
{
    first_pixels::<BYTES>(row, x, line);
    repeat_pixels::<BYTES>(line, width);
}

// A line that repeats a row, from column x of it on: so many pixels, and at least sixteen.
pub fn tile_line(row: [u16; 8], bytes: usize, x: usize, width: usize, line: &mut [u8])
    requires { (0 < bytes) × (bytes ≤ 2) × (x < 8) × (width ≤ 1024) × (2048 ≤ length line.old) }
    ensures { line.new ≡ straight_line bytes (λ s d. s) (λ i. get_or row ((x + i) % 8) 0) (max 16 width) line.old }
{
    if bytes == 1 {
        tile_pixels::<1>(row, x, width, line);
    } else {
        tile_pixels::<2>(row, x, width, line);
    }
}

// Eight lines side by side, each of 2048 bytes: one for each row, row y first, from column x on.
pub fn tile_lines(
    rows: [[u16; 8]; 8],
    bytes: usize,
    x: usize,
    y: usize,
    width: usize,
    lines: &mut [u8],
)
    requires { (0 < bytes) × (bytes ≤ 2) × (x < 8) × (y < 8) × (width ≤ 1024) × (16384 ≤ length lines.old) }
    ensures { lines.new ≡ tiled_lines bytes rows x y width 8 lines.old }
{
    for k in 0..8 {
        let row = rows[(y + k) % 8];
        let at = k * 2048;
        tile_line(row, bytes, x, width, &mut lines[at..at + 2048]);
    }
}
