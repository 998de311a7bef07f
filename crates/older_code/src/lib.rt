// The older units' S1D13706: compiling for it, its six values from eighteen bytes, its point reader and its line reader.
#![tactic(auto)]

ghost use Rattle.std.specs.Prelude.{◌≡◌, ◌≤◌, length};
ghost use Rattle.std.proofs.lemmas.List.Edits.{sets};
ghost use Rattle.record.specs.Checks.{first_of};
ghost use Rattle.record.specs.Record.{stream_bytes};
ghost use Rattle.screen.specs.Narrow.{Narrow};
ghost use Rattle.command.specs.Task.{task};
ghost use Rattle.compiler.specs.Compile.{compiling_of, answer_of, numbers_of};
ghost use Rattle.compiler.specs.Part.{RefusedPart};
ghost use Rattle.reader.specs.Read.{reading, reading_of, answer_of as point_of};
ghost use Rattle.reader.specs.Line.{line_number, line_after};
ghost use Rattle.refusal.specs.Number.{number_of};
ghost use Rattle.older.specs.Bytes.{older_memory, older_bytes, older_values};
ghost use Rattle.older.specs.Compile.{older_records, lent_rows, older_compiling, older_buffer};

use compiler::Compiled;
use older::OLDER_MEMORY;
use reader::{Display, Point};
use refusal::{Refusal, Refused};
use screen::{Origin, Screen, ScreenValues};

// Main start and offset; the window's start, offset, X start, Y start, X end and Y end.
const REGISTERS: [u32; 18] = [
    0x74, 0x75, 0x76, 0x78, 0x79, 0x7C, 0x7D, 0x7E, 0x80, 0x81, 0x84, 0x85, 0x88, 0x89, 0x8C, 0x8D,
    0x90, 0x91,
];

// The bytes of the six values in these registers, each value's lowest first.
fn bytes_of(v: ScreenValues) -> [u64; 18]
    ensures { result ≡ older_bytes v }
{
    let main = v.main;
    let window = v.window;
    let x = v.x % 65536;
    let y = v.y % 65536;
    let x_end = v.x / 65536;
    let y_end = v.y / 65536;
    [
        main.start % 256,
        main.start / 256 % 256,
        main.start / 65536 % 256,
        main.offset % 256,
        main.offset / 256 % 256,
        window.start % 256,
        window.start / 256 % 256,
        window.start / 65536 % 256,
        window.offset % 256,
        window.offset / 256 % 256,
        x % 256,
        x / 256 % 256,
        y % 256,
        y / 256 % 256,
        x_end % 256,
        x_end / 256 % 256,
        y_end % 256,
        y_end / 256 % 256,
    ]
}

// The six values that eighteen such bytes make.
pub fn values_from(bytes: &[u8; 18]) -> ScreenValues
    ensures value { result ≡ older_values bytes.now }
    ensures narrow { Narrow result }
{
    let b = &bytes[..];
    let main = Origin {
        start: record_code::u24_at(b, 0) as u64,
        offset: record_code::u16_at(b, 3) as u64,
    };
    let window = Origin {
        start: record_code::u24_at(b, 5) as u64,
        offset: record_code::u16_at(b, 8) as u64,
    };
    let x = record_code::u16_at(b, 10) as u64;
    let y = record_code::u16_at(b, 12) as u64;
    let x_end = record_code::u16_at(b, 14) as u64;
    let y_end = record_code::u16_at(b, 16) as u64;
    ScreenValues {
        main,
        window,
        x: x + 65536 * x_end,
        y: y + 65536 * y_end,
    }
}

// Stores a screen's eighteen records at the buffer's start.
fn put_screen(s: Screen, buffer: &mut [u8])
    requires { 144 ≤ length buffer.old }
    ensures { buffer.new ≡ sets buffer.old 0 (stream_bytes (older_records s)) }
{
    let values = bytes_of(screen_values::screen_values(s));
    compiler_pass::put_records(buffer, 0, &REGISTERS, &values);
}

// The first of 10, 11, 16 and 17 that what is lent besides the screen record gives.
fn check_lent(
    form: u32,
    screen: &[u8],
    list: &[u8],
    words: &[u16],
    stream: &[u8],
) -> Result<(), Refusal>
    ensures { number_of result ≡ first_of (lent_rows (task form screen.now list.now words.now) (length stream.now)) }
{
    record_code::first_of(&[
        (Refusal::ListLength, !command_code::is_list(form, list)),
        (Refusal::ListDepth, 0 < list.len()),
        (Refusal::WordsLeft, 0 < words.len()),
        (Refusal::Room, stream.len() < 144),
    ])
}

// Compiles: the stream's length with the screen's depth, rotation and flag, or a refusal. The stream buffer then holds
// the stream, or its old bytes.
pub fn compile_into(
    form: u32,
    screen: &[u8],
    list: &[u8],
    words: &[u16],
    stream: &mut [u8],
) -> Result<Compiled, Refused>
    ensures result_value { compiling_of result ≡ older_compiling (task form screen.now list.now words.now) (length stream.old) }
    ensures value { result ≡ answer_of (older_compiling (task form screen.now list.now words.now) (length stream.old)) }
    ensures stream_after { stream.new ≡ older_buffer (task form screen.now list.now words.now) stream.old }
{
    let s = screen_code::read_screen_in(OLDER_MEMORY, screen)?;
    check_lent(form, screen, list, words, stream)?;
    put_screen(s, stream);
    Ok(Compiled {
        length: 144,
        depth: s.depth as u32,
        rotation: s.rotation as u32,
        flag: s.flag as u32,
    })
}

// Compiles, stores the answer's numbers, and hands back the refused command's part of the list: none is, so it is empty, at the list's
// start.
pub fn compile<'a>(
    form: u32,
    screen: &[u8],
    list: &'a [u8],
    words: &[u16],
    stream: &mut [u8],
    answer: &mut [u64; 6],
) -> &'a [u8]
    ensures refused_part { RefusedPart form list.entry result (older_compiling (task form screen.now list.now words.now) (length stream.old)) }
    ensures answer_after { answer.new ≡ numbers_of (older_compiling (task form screen.now list.now words.now) (length stream.old)) }
    ensures stream_after { stream.new ≡ older_buffer (task form screen.now list.now words.now) stream.old }
{
    let c = compile_into(form, screen, list, words, stream);
    compiler_code::store(answer, c);
    compiler_code::refused_part(form, list, c)
}

// What panel point (p, q) shows, and where that stands in the S1D13706's memory, or the first refusal.
pub fn read_point(
    d: Display,
    values: ScreenValues,
    p: u32,
    q: u32,
    memory: &[u8],
) -> Result<Point, Refusal>
    ensures result_value { reading_of result ≡ reading older_memory d values p q memory.now }
    ensures value { result ≡ point_of (reading older_memory d values p q memory.now) }
{
    reader_code::read_point_in(OLDER_MEMORY, d, values, p, q, memory)
}

// What panel line q shows: a colour for each column of the line; or the first refusal, and the line is as it was.
pub fn read_line(
    d: Display,
    values: ScreenValues,
    q: u32,
    memory: &[u8],
    line: &mut [u16],
) -> Result<(), Refusal>
    ensures value { number_of result ≡ line_number older_memory d values q memory.now (length line.old) }
    ensures line_after { line.new ≡ line_after older_memory d values q memory.now line.old }
{
    reader_line::read_line_in(OLDER_MEMORY, d, values, q, memory, line)
}
