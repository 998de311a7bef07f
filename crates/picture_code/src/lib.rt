// The panel as a picture: its head, and a line of its points. And the line of text that says what one point shows.
#![tactic(auto)]

ghost use Rattle.std.specs.Prelude.{◌≡◌, ◌+◌, ◌*◌, ◌/◌, ◌%◌, min, length, get_or};
ghost use Rattle.std.proofs.lemmas.List.Edits.{sets};
ghost use Rattle.io.specs.Counts.{IsPrefixLen};
ghost use Rattle.screen.specs.Screen.{memory_size};
ghost use Rattle.reader.specs.Read.{reading, answer_of};
ghost use Rattle.text.specs.Lines.{joined};
ghost use Rattle.text.specs.Text.{Stored};
ghost use Rattle.picture.specs.Picture.{highest, picture_kind, picture_head, pixel_size, from_five, from_six, pixel_bytes, point_bytes, pixels_in, answer_line};

use reader::Display;
use screen::ScreenValues;

// The highest value of a picture at a depth.
fn highest_value(depth: u32) -> u32
    ensures { result ≡ highest depth }
{
    if depth < 8 {
        return (1u32 << depth) - 1;
    }
    255
}

// The first line of a picture.
fn put_kind(depth: u32, line: &mut [u8]) -> usize
    ensures { Stored line.old 0 (picture_kind depth) line.new result }
{
    if depth == 16 {
        return text_code::put(line, 0, b"P6\n");
    }
    text_code::put(line, 0, b"P5\n")
}

// The picture's head, cut where there is no room; answers its bytes.
pub fn put_head(d: Display, line: &mut [u8]) -> usize
    ensures { Stored line.old 0 (picture_head d) line.new result }
{
    let depth = d.depth;
    let at = put_kind(depth, line);
    let at = text_code::put_decimal(line, at, d.width as u64);
    let at = text_code::put(line, at, b" ");
    let at = text_code::put_decimal(line, at, d.height as u64);
    let at = text_code::put(line, at, b"\n");
    let at = text_code::put_decimal(line, at, highest_value(depth) as u64);
    text_code::put(line, at, b"\n")
}

// Bytes of a pixel in a picture.
fn pixel_size(depth: u32) -> usize
    ensures { result ≡ pixel_size depth }
{
    if depth == 16 { 3 } else { 1 }
}

// The last five bits of a number, widened to eight.
fn from_five(v: u16) -> u8
    ensures { result ≡ from_five (v % 32) }
{
    let x = v % 32;
    (8 * x + x / 4) as u8
}

// The last six bits of a number, widened to eight.
fn from_six(v: u16) -> u8
    ensures { result ≡ from_six (v % 64) }
{
    let x = v % 64;
    (4 * x + x / 16) as u8
}

// Stores a colour's bytes at `at`.
fn put_colour(line: &mut [u8], at: usize, depth: u32, c: u16)
    ensures { line.new ≡ sets line.old at (pixel_bytes depth c) }
{
    if depth == 16 {
        let three = [from_five(c / 2048), from_six(c / 32), from_five(c)];
        text_code::put(line, at, &three);
    } else {
        let one = [(c % 256) as u8];
        text_code::put(line, at, &one);
    }
}

// Colour p of a line; 0 past its end.
fn colour_at(colours: &[u16], p: usize) -> u16
    ensures { result ≡ get_or colours.now p 0 }
{
    if p < colours.len() { colours[p] } else { 0 }
}

// Stores the bytes of a line's first `width` points, as many as there is room for; answers how many bytes.
fn put_colours(depth: u32, width: usize, colours: &[u16], line: &mut [u8]) -> usize
    ensures value { result ≡ pixel_size depth * min width (length line.old / pixel_size depth) }
    ensures prefix_len { IsPrefixLen result line.new }
    ensures line_after { line.new ≡ sets line.old 0 (joined (λ p. pixel_bytes depth (get_or colours.now p 0)) (min width (length line.old / pixel_size depth))) }
{
    let size = pixel_size(depth);
    let n = width.min(line.len() / size);
    for i in 0..n {
        put_colour(line, size * i, depth, colour_at(colours, i));
    }
    size * n
}

// Line q of the panel's picture, as many points as there is room for; answers its bytes. A panel of more than 1,024 columns is refused, so its
// colours are 0.
pub fn put_points(d: Display, values: ScreenValues, q: u32, memory: &[u8], line: &mut [u8]) -> usize
    ensures value { result ≡ pixel_size d.depth * pixels_in d (length line.old) }
    ensures prefix_len { IsPrefixLen result line.new }
    ensures line_after { line.new ≡ sets line.old 0 (joined (point_bytes d values q memory.now) (pixels_in d (length line.old))) }
{
    let width = d.width as usize;
    let mut colours = [0u16; 1024];
    let n = width.min(1024);
    let _ = reader_line::read_line(d, values, q, memory, &mut colours[..n]);
    put_colours(d.depth, width, &colours, line)
}

// The line of panel point (p, q), or of its refusal, cut where there is no room; answers its bytes.
pub fn put_answer(
    d: Display,
    values: ScreenValues,
    p: u32,
    q: u32,
    memory: &[u8],
    line: &mut [u8],
) -> usize
    ensures { Stored line.old 0 (answer_line (answer_of (reading memory_size d values p q memory.now))) line.new result }
{
    match reader_code::read_point(d, values, p, q, memory) {
        Ok(seen) => text_code::put_point(seen.colour as u64, seen.address, seen.bit as u64, line),
        Err(refusal) => text_code::put_refusal(refusal.number() as u64, 0, line),
    }
}
