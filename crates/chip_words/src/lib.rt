// A write's data words, drawn into their line.
#![tactic(auto)]

ghost use Rattle.std.specs.Prelude.{◌≡◌, ◌+◌, ◌-◌, ◌*◌, ◌/◌, ◌^◌, ◌≤◌, ◌<◌, min, length, get_or, set, replicate};
ghost use Rattle.std.proofs.lemmas.List.Edits.{sets};
ghost use Rattle.record.specs.Record.{records_from};
ghost use Rattle.pixel.specs.Pixel.{get_pixel, put_pixel};
ghost use Rattle.blit.specs.Blit.{pixels};
ghost use Rattle.blit.specs.Job.{mix_of};
ghost use Rattle.blit.specs.declared.Mix.TheVariants.{Raster};
ghost use Rattle.blit.specs.Words.{per_word, word_pixel, chip_word, chip_words, word_bytes};
ghost use Rattle.chip.specs.Start.{bytes_of, line_of, width_of, destination_of, write_of};
ghost use Rattle.chip.specs.Words.{values_of, due_in_line};

use blit::Mix;
use chip::{Due, Registers};

// Pixels of a word.
fn per_word(b: Registers) -> usize
    ensures { (result ≡ per_word (bytes_of b)) × (result ≤ 2) }
{
    if chip_due::bytes_of(b) == 1 { 2 } else { 1 }
}

// The address of the due word.
fn place_of(b: Registers, d: Due) -> usize
    ensures { (result ≡ destination_of b + (d.line * line_of b + d.word * per_word (bytes_of b) * bytes_of b)) × (result < 2 ^ 32) }
{
    let down = u64::from(d.line) * chip_due::line_of(b);
    let along = 2 * u64::from(d.word);
    (u64::from(chip_due::destination_of(b)) + (down + along)) as usize
}

// Pixels that so many words, from the due one on, have in their line.
fn pixels_of(b: Registers, d: Due, n: usize) -> usize
    requires { n ≤ 1024 }
    ensures { (result ≡ min (per_word (bytes_of b) * n) (width_of b - d.word * per_word (bytes_of b))) × (result ≤ 1024) }
{
    let per = per_word(b);
    let word = u64::from(d.word);
    let before = word * per as u64;
    let left = chip_due::width_of(b).saturating_sub(before);
    (per * n).min(left as usize)
}

// The byte at an address; 0 past the end.
fn byte_at(memory: &[u8], at: usize) -> u16
    ensures { (result ≡ get_or memory.now at 0) × (result < 256) }
{
    memory.get(at).map_or(0, |x| u16::from(*x))
}

// Stores a byte where the memory has the address.
fn store_byte(memory: &mut [u8], at: usize, value: u8)
    ensures { memory.new ≡ set memory.old at value }
{
    if at < memory.len() {
        memory[at] = value;
    }
}

// One pixel, mixed with what stands there. A byte past the end reads 0 and is not stored.
fn draw_clipped(bytes: usize, mix: Mix, at: usize, pixel: u16, memory: &mut [u8])
    requires { (0 < bytes) × (bytes ≤ 2) × (at < 2 ^ 40) }
    ensures { memory.new ≡ put_pixel bytes memory.old at (mix_of mix bytes pixel (get_pixel bytes memory.old at)) }
{
    let low = byte_at(memory, at);
    if bytes == 1 {
        let v = blit_line::mixed_pixel(mix, bytes, pixel, low);
        store_byte(memory, at, v.to_le_bytes()[0]);
        return;
    }
    let high = byte_at(memory, at + 1);
    let v = blit_line::mixed_pixel(mix, bytes, pixel, low + 256 * high);
    let new = v.to_le_bytes();
    store_byte(memory, at, new[0]);
    store_byte(memory, at + 1, new[1]);
}

// Pixel i of a word.
fn word_pixel(bytes: usize, word: u16, i: usize) -> u16
    requires { (0 < bytes) × (bytes ≤ 2) × (i < per_word bytes) }
    ensures { result ≡ word_pixel bytes word i }
{
    if bytes == 2 {
        word
    } else {
        u16::from(word.to_le_bytes()[i])
    }
}

// The first pixels of a word, drawn from an address on that the memory may not have.
fn write_clipped(bytes: usize, mix: Mix, at: usize, count: usize, word: u16, memory: &mut [u8])
    requires { (0 < bytes) × (bytes ≤ 2) × (count ≤ per_word bytes) × (at < 2 ^ 32) }
    ensures { memory.new ≡ pixels bytes (mix_of mix bytes) (λ i. at + i * bytes) (λ m i. word_pixel bytes word i) count memory.old }
{
    for i in 0..count {
        let pixel = word_pixel(bytes, word, i);
        draw_clipped(bytes, mix, at + i * bytes, pixel, memory);
    }
}

// The due word alone: its pixels, as far as line and memory have them.
fn write_word(b: Registers, d: Due, value: u32, memory: &mut [u8])
    ensures { memory.new ≡ chip_word (write_of b (λ i j. 0)) d.line d.word value memory.old }
{
    let bytes = chip_due::bytes_of(b) as usize;
    let code = chip_due::raster_code(b);
    let at = place_of(b, d);
    let count = pixels_of(b, d, 1);
    let word = (value % 65536) as u16;
    write_clipped(bytes, Mix::Raster(code), at, count, word, memory);
}

// The words of so many records, from the due one on, one by one.
fn write_words(b: Registers, d: Due, stream: &[u8], i: usize, n: usize, memory: &mut [u8])
    requires { (i + n ≤ length stream.now / 8) × (n ≤ due_in_line b d) }
    ensures { memory.new ≡ chip_words (write_of b (λ x y. 0)) d.line d.word (values_of (records_from stream.now i n)) memory.old }
{
    for k in 0..n {
        let r = record_code::record_at(stream, i + k);
        let next = Due {
            any: true,
            line: d.line,
            word: d.word + k as u16,
        };
        write_word(b, next, r.value, memory);
    }
}

// The bytes of the words of so many records, stored at a source line's start.
fn gather_words(stream: &[u8], i: usize, n: usize, line: &mut [u8])
    requires { (i + n ≤ length stream.now / 8) × (2 * n ≤ length line.old) }
    ensures { line.new ≡ sets line.old 0 (word_bytes (values_of (records_from stream.now i n))) }
{
    for k in 0..n {
        let r = record_code::record_at(stream, i + k);
        let word = r.value.to_le_bytes();
        line[2 * k] = word[0];
        line[2 * k + 1] = word[1];
    }
}

// The pixels of the words of so many records, drawn from an address on as one line, through a source line of N bytes.
fn draw_words<const N: usize>(
    bytes: usize,
    code: u8,
    at: usize,
    count: usize,
    stream: &[u8],
    i: usize,
    n: usize,
    memory: &mut [u8],
)
    requires bytes_nonzero { (0 < bytes) × (bytes ≤ 2) × (count ≤ 1024) × (count * bytes ≤ 2 * n) × (at + count * bytes ≤ length memory.old) }
    requires n_in_bounds { (i + n ≤ length stream.now / 8) × (2 * n ≤ N) × (N ≤ 2048) }
    ensures { memory.new ≡ pixels bytes (mix_of (Raster code) bytes) (λ k. at + k * bytes) (λ x k. get_pixel bytes (sets (replicate N 0) 0 (word_bytes (values_of (records_from stream.now i n)))) (k * bytes)) count memory.old }
{
    let mut source = [0u8; N];
    gather_words(stream, i, n, &mut source);
    blit_code::put_line(bytes, Mix::Raster(code), at, count, &source, memory);
}

// The words of so many records, from the due one on, as one line, with room for those of a block, of a short line, or of any line: the
// smaller is the sooner made. Where the memory ends before the line, which no stream from a new chip leads to, they are drawn one by one.
#[tactic(auto, using(chip::proofs::Dues::few_in_line, crate::proofs::Gathered::in_words))]
pub fn write_line(b: Registers, d: Due, stream: &[u8], i: usize, n: usize, memory: &mut [u8])
    requires { (i + n ≤ length stream.now / 8) × (n ≤ due_in_line b d) }
    ensures { memory.new ≡ chip_words (write_of b (λ x y. 0)) d.line d.word (values_of (records_from stream.now i n)) memory.old }
{
    let bytes = chip_due::bytes_of(b) as usize;
    let code = chip_due::raster_code(b);
    let at = place_of(b, d);
    let count = pixels_of(b, d, n);
    if memory.len() < at + count * bytes {
        write_words(b, d, stream, i, n, memory);
        return;
    }
    if n <= 8 {
        draw_words::<16>(bytes, code, at, count, stream, i, n, memory);
    } else if n <= 64 {
        draw_words::<128>(bytes, code, at, count, stream, i, n, memory);
    } else {
        draw_words::<2048>(bytes, code, at, count, stream, i, n, memory);
    }
}
