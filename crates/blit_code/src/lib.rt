// The blit engine: fills, moves, pattern fills and host words over a lent memory, line by line.
#![tactic(auto)]

ghost use Rattle.std.specs.Prelude.{◌≡◌, false, [], ◌+◌, ◌*◌, ◌%◌, ◌≤◌, ◌<◌, max, length, get_or};
ghost use Rattle.pixel.specs.Pixel.{get_pixel};
ghost use Rattle.blit.specs.Blit.{given, memory as in_memory, pixels, chip_line, chip_blit, towards};
ghost use Rattle.blit.specs.Job.{mix_of, pattern_pixel, blit_of, performed, JobOk};
ghost use Rattle.blit.specs.Line.{straight_line, copied};
ghost use Rattle.blit.specs.declared.From.TheVariants.{Colour, Memory, Pattern};
ghost use Rattle.blit_pattern.specs.Pattern.{rows_pixel};
ghost use Rattle.blit_code.specs.Lines.{lag_of, lines_pixel, low_end, AboveZero};

use blit::{From, Job, Mix};

// From which pixel on a move's source is a pixel that its own line has stored; s and d are the low ends of the two lines.
#[tactic(auto, unfolding(crate::specs::Lines::lag_of))]
fn lag_of(down: bool, bytes: usize, width: usize, s: usize, d: usize) -> usize
    requires { 0 < bytes }
    ensures { result ≡ lag_of down bytes width s d }
{
    if down {
        if d < s {
            return (s - d) / bytes;
        }
        return width;
    }
    if s < d {
        return (d - s) / bytes;
    }
    width
}

// The low end of line j of a rectangle that is drawn from an address.
#[tactic(auto, unfolding(crate::specs::Lines::low_end))]
fn low_end(down: bool, bytes: usize, line: usize, width: usize, at: u32, j: usize) -> usize
    requires { (bytes ≤ 2) × (line ≤ 4096) × (width ≤ 1024) × (j ≤ 1024) × AboveZero down bytes line width at j }
    ensures { result ≡ low_end down bytes line width at j }
{
    if down {
        return at as usize + bytes - (j * line + width * bytes);
    }
    at as usize + j * line
}

// Line j of a blit of one colour.
fn colour_line(job: Job, j: usize, colour: u16, memory: &mut [u8])
    requires { JobOk (length memory.old) job × (j < job.height) × (job.from ≡ Colour colour) }
    ensures { memory.new ≡ chip_line (blit_of job (given (λ i k. colour))) (towards job.down) j job.width memory.old }
{
    let d = low_end(job.down, job.bytes, job.line, job.width, job.destination, j);
    let e = d + job.width * job.bytes;
    blit_line::fill_worker(&mut memory[d..e], job.bytes, job.width, colour);
}

// Line j of a move from an address; source is room for its source line.
fn move_line(job: Job, j: usize, from: u32, source: &mut [u8], memory: &mut [u8])
    requires { JobOk (length memory.old) job × (j < job.height) × (job.from ≡ Memory from) × (2048 ≤ length source.old) }
    ensures memory_after { memory.new ≡ chip_line (blit_of job (in_memory from)) (towards job.down) j job.width memory.old }
    ensures source_after { source.new ≡ copied memory.old (low_end job.down job.bytes job.line job.width from j) (job.width * job.bytes) source.old }
{
    let s = low_end(job.down, job.bytes, job.line, job.width, from, j);
    let d = low_end(job.down, job.bytes, job.line, job.width, job.destination, j);
    let size = job.width * job.bytes;
    blit_line::copy_bytes(memory, s, size, source);
    let lag = lag_of(job.down, job.bytes, job.width, s, d);
    let e = d + size;
    blit_line::line_worker(
        &mut memory[d..e],
        job.down,
        job.bytes,
        job.width,
        job.mix,
        source,
        lag,
    );
}

// Pixels of a source line, drawn from an address on.
pub fn put_line(bytes: usize, mix: Mix, at: usize, count: usize, source: &[u8], memory: &mut [u8])
    requires { (0 < bytes) × (bytes ≤ 2) × (count ≤ 1024) × (count * bytes ≤ length source.now) × (at + count * bytes ≤ length memory.old) }
    ensures { memory.new ≡ pixels bytes (mix_of mix bytes) (λ i. at + i * bytes) (λ m i. get_pixel bytes source.now (i * bytes)) count memory.old }
{
    let e = at + count * bytes;
    blit_line::line_worker(&mut memory[at..e], false, bytes, count, mix, source, count);
}

// Line j of a pattern fill from its rows, column x and line y of them first; source is room for its source line.
fn row_line(
    job: Job,
    j: usize,
    rows: [[u16; 8]; 8],
    x: usize,
    y: usize,
    source: &mut [u8],
    memory: &mut [u8],
)
    requires { JobOk (length memory.old) job × (j < job.height) × (job.down ≡ false) × (x < 8) × (y < 8) × (2048 ≤ length source.old) }
    ensures memory_after { memory.new ≡ chip_line (blit_of job (given (λ i k. rows_pixel job.bytes rows (x + i) (y + k)))) (towards job.down) j job.width memory.old }
    ensures source_after { source.new ≡ straight_line job.bytes (λ s d. s) (λ i. get_or (get_or rows ((y + j) % 8) []) ((x + i) % 8) 0) (max 16 job.width) source.old }
{
    let row = rows[(y + j) % 8];
    blit_pattern::tile_line(row, job.bytes, x, job.width, source);
    let at = low_end(job.down, job.bytes, job.line, job.width, job.destination, j);
    put_line(job.bytes, job.mix, at, job.width, source, memory);
}

// Line j of a pattern fill from its eight source lines, side by side, each of 2048 bytes.
fn pattern_line(job: Job, j: usize, lines: &[u8], memory: &mut [u8])
    requires { JobOk (length memory.old) job × (j < job.height) × (job.down ≡ false) × (16384 ≤ length lines.now) }
    ensures { memory.new ≡ chip_line (blit_of job (given (λ i k. lines_pixel job.bytes lines.now i k))) (towards job.down) j job.width memory.old }
{
    let at = low_end(job.down, job.bytes, job.line, job.width, job.destination, j);
    let part = j % 8 * 2048;
    let e = part + 2048;
    put_line(job.bytes, job.mix, at, job.width, &lines[part..e], memory);
}

// All lines of a blit of one colour.
// Four functions have this loop: one that took the step as a closure would need, for what the step stores, a contract longer than the loop.
fn colour_lines(job: Job, colour: u16, memory: &mut [u8])
    requires { JobOk (length memory.old) job × (job.from ≡ Colour colour) }
    ensures { memory.new ≡ chip_blit (blit_of job (given (λ i k. colour))) (towards job.down) memory.old }
{
    for j in 0..job.height {
        colour_line(job, j, colour, memory);
    }
}

// All lines of a move.
fn move_lines(job: Job, from: u32, memory: &mut [u8])
    requires { JobOk (length memory.old) job × (job.from ≡ Memory from) }
    ensures { memory.new ≡ chip_blit (blit_of job (in_memory from)) (towards job.down) memory.old }
{
    let mut source = [0u8; 2048];
    for j in 0..job.height {
        move_line(job, j, from, &mut source, memory);
    }
}

// All lines of a pattern fill from its rows, where they are few: each makes its own source line.
fn few_lines(job: Job, rows: [[u16; 8]; 8], x: usize, y: usize, memory: &mut [u8])
    requires { JobOk (length memory.old) job × (job.down ≡ false) × (x < 8) × (y < 8) }
    ensures { memory.new ≡ chip_blit (blit_of job (given (λ i k. rows_pixel job.bytes rows (x + i) (y + k)))) (towards job.down) memory.old }
{
    let mut source = [0u8; 2048];
    for j in 0..job.height {
        row_line(job, j, rows, x, y, &mut source, memory);
    }
}

// All lines of a pattern fill from its rows: its source lines repeat every eight, and are made once.
fn pattern_lines(job: Job, rows: [[u16; 8]; 8], x: usize, y: usize, memory: &mut [u8])
    requires { JobOk (length memory.old) job × (job.down ≡ false) × (x < 8) × (y < 8) }
    ensures { memory.new ≡ chip_blit (blit_of job (given (λ i k. rows_pixel job.bytes rows (x + i) (y + k)))) (towards job.down) memory.old }
{
    let mut lines = [0u8; 16384];
    blit_pattern::tile_lines(rows, job.bytes, x, y, job.width, &mut lines);
    for j in 0..job.height {
        pattern_line(job, j, &lines, memory);
    }
}

// A pattern fill: the whole pattern is read before the first pixel is drawn.
fn pattern_fill(job: Job, at: u32, x: u32, y: u32, memory: &mut [u8])
    requires { JobOk (length memory.old) job × (job.from ≡ Pattern at x y) }
    ensures { memory.new ≡ chip_blit (blit_of job (given (λ i k. pattern_pixel job.bytes memory.old at (x + i) (y + k)))) (towards job.down) memory.old }
{
    let rows = blit_pattern::read_pattern(memory, job.bytes, at as usize);
    let column = (x % 8) as usize;
    let row = (y % 8) as usize;
    if job.height <= 8 {
        few_lines(job, rows, column, row, memory);
    } else {
        pattern_lines(job, rows, column, row, memory);
    }
}

// A blit over the lent memory.
pub fn perform(job: Job, memory: &mut [u8])
    requires { JobOk (length memory.old) job }
    ensures { memory.new ≡ performed job memory.old }
{
    match job.from {
        From::Colour(colour) => colour_lines(job, colour, memory),
        From::Memory(at) => move_lines(job, at, memory),
        From::Pattern(at, x, y) => pattern_fill(job, at, x, y, memory),
    }
}
