// Whether a step is as the papers have it, and what that says of an example and of all.
#![tactic(auto)]

ghost use Rattle.std.specs.Prelude.{◌≡◌};
ghost use Rattle.compiler.specs.Compile.{compiling_by};
ghost use Rattle.script.specs.Verdict.{is_answer, is_played, is_record, has_records, display_on, is_colour, is_point, same_bytes, is_setting, is_comment, holds, judged};

use compiler::Compiled;
use reader::{Display, Point};
use refusal::{Numbered, Refusal};
use screen::ScreenValues;
use script::Tally;

// The steps that only compare, and the end of an example: numbers, as those of script_steps.
const REG: u32 = 0x20676572;

const RECORDS: u32 = 0x6F636572;

const POINT: u32 = 0x6E696F70;

const SAME: u32 = 0x656D6173;

pub const DONE: u32 = 0x656E6F64;

// The number that an answer of compiling has.
#[tactic(auto, unfolding(compiler::specs::Compile::compiling_by))]
fn number_of<E: Numbered>(c: Result<Compiled, E>) -> u32
    ensures { result ≡ (compiling_by E.number_in E.place_in c).number }
{
    match c {
        Ok(_) => 0,
        Err(why) => why.as_number(),
    }
}

// Whether compiling gave the line's number.
fn is_answer<E: Numbered>(line: &[u8], c: Result<Compiled, E>) -> bool
    ensures { result ≡ is_answer line.now (compiling_by E.number_in E.place_in c) }
{
    number_of(c) == script_code::number(line, 0)
}

// Whether playing was not refused.
#[tactic(auto, unfolding(script::specs::Verdict::is_played))]
fn is_played<P: Copy>(p: Result<ScreenValues, P>) -> bool
    ensures { result ≡ is_played p }
{
    p.is_ok()
}

// Whether the line's record is in the stream, and is the line's register at the line's value.
fn is_record<E: Numbered>(line: &[u8], c: Result<Compiled, E>, stream: &[u8; 16384]) -> bool
    ensures { result ≡ is_record line.now (compiling_by E.number_in E.place_in c) stream.now }
{
    let at = 8 * script_code::number(line, 0) as usize;
    let n = script_code::number_at(stream, at);
    let v = script_code::number_at(stream, at + 4) as u64;
    let value = script_code::number(line, 2) as u64 + 65536 * script_code::number(line, 3) as u64;
    ((at as u64) < script_steps::size_of(c)) & ((n == script_code::number(line, 1)) & (v == value))
}

// Whether the stream has the line's number of records.
fn has_records<E: Numbered>(line: &[u8], c: Result<Compiled, E>) -> bool
    ensures { result ≡ has_records line.now (compiling_by E.number_in E.place_in c) }
{
    script_steps::size_of(c) == 8 * script_code::number(line, 0) as u64
}

// The panel as compiling sets it, in the size that the desk has.
fn display_on<E: Numbered>(c: Result<Compiled, E>, desk: &[u8; 92]) -> Display
    ensures { result ≡ display_on (compiling_by E.number_in E.place_in c) desk.now }
{
    let width = script_code::number_at(desk, 4) % 65536;
    let height = script_code::number_at(desk, 6) % 65536;
    match c {
        Ok(compiled) => Display {
            depth: compiled.depth,
            rotation: compiled.rotation,
            flag: compiled.flag,
            width,
            height,
        },
        Err(_) => Display {
            depth: 0,
            rotation: 0,
            flag: 0,
            width,
            height,
        },
    }
}

// Whether a point shows the line's colour.
fn is_colour(line: &[u8], a: Result<Point, Refusal>) -> bool
    ensures { result ≡ is_colour line.now a }
{
    let colour = script_code::number(line, 2);
    match a {
        Ok(point) => point.colour as u32 == colour,
        Err(_) => false,
    }
}

// Whether the line's panel point, after playing, shows the line's colour.
fn is_point<E: Numbered, P: Copy>(
    line: &[u8],
    c: Result<Compiled, E>,
    p: Result<ScreenValues, P>,
    desk: &[u8; 92],
    memory: &[u8; 262144],
) -> bool
    ensures { result ≡ is_point line.now (compiling_by E.number_in E.place_in c) p desk.now memory.now }
{
    match p {
        Ok(values) => {
            let display = display_on(c, desk);
            let x = script_code::number(line, 0);
            let y = script_code::number(line, 1);
            is_colour(line, reader_code::read_point(display, values, x, y, memory))
        }
        Err(_) => false,
    }
}

// Whether two memories hold the same bytes.
fn is_same(a: &[u8; 262144], b: &[u8; 262144]) -> bool
    ensures { result ≡ same_bytes a.now b.now }
{
    check::same(a, b)
}

// Whether a step compares nothing.
fn is_setting(k: u32) -> bool
    ensures { result ≡ is_setting k }
{
    matches!(
        k,
        script_steps::SCREEN
            | script_steps::COMMAND
            | script_steps::LONG
            | script_steps::WORD
            | script_steps::STORE
            | script_steps::PATCH
            | script_steps::EXAMPLE
            | script_steps::KEEP
            | DONE
    )
}

// Whether a line is empty or begins with #.
fn is_comment(line: &[u8]) -> bool
    ensures { result ≡ is_comment line.now }
{
    line.is_empty() || line[0] == b'#'
}

// Whether a line is as the papers have it.
pub fn check_line<E: Numbered, P: Copy>(
    k: u32,
    line: &[u8],
    c: Result<Compiled, E>,
    p: Result<ScreenValues, P>,
    desk: &[u8; 92],
    stream: &[u8; 16384],
    memory: &[u8; 262144],
    kept: &[u8; 262144],
) -> bool
    ensures { result ≡ holds k line.now (compiling_by E.number_in E.place_in c) p desk.now stream.now memory.now kept.now }
{
    match k {
        script_steps::COMPILE | script_steps::OLDER => is_answer(line, c),
        script_steps::PLAY => is_played(p),
        REG => is_record(line, c, stream),
        RECORDS => has_records(line, c),
        POINT => is_point(line, c, p, desk, memory),
        SAME => is_same(memory, kept),
        _ => is_setting(k) | is_comment(line),
    }
}

// Notes whether a line was as the papers have it.
pub fn judge(k: u32, t: Tally, ok: bool) -> Tally
    ensures { result ≡ judged k t ok }
{
    Tally {
        example: ((k == script_steps::EXAMPLE) | t.example) & ok,
        all: t.all & ok,
    }
}
