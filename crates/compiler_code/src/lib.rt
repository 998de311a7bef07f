// Compiling a screen record, a command list and host words into a lent stream buffer.
#![tactic(auto)]

ghost use Rattle.std.specs.Prelude.{◌≡◌, length};
ghost use Rattle.screen.specs.Screen.{memory_size};
ghost use Rattle.command.specs.Task.{task};
ghost use Rattle.compiler.specs.Compile.{compiling, buffer_after, compiling_by, compiling_of, answer_of, numbers_of};
ghost use Rattle.compiler.specs.Part.{part_from, part_size, RefusedPart};

use compiler::{Compiled, Part};
use refusal::{Numbered, Refusal, Refused};

// Compiles: the stream's length with the screen's depth, rotation and flag, or a refusal. The stream buffer then holds
// the stream, or its old bytes.
pub fn compile_into(
    form: u32,
    screen: &[u8],
    list: &[u8],
    words: &[u16],
    stream: &mut [u8],
) -> Result<Compiled, Refused>
    ensures result_value { compiling_of result ≡ compiling memory_size (task form screen.now list.now words.now) (length stream.old) }
    ensures value { result ≡ answer_of (compiling memory_size (task form screen.now list.now words.now) (length stream.old)) }
    ensures stream_after { stream.new ≡ buffer_after memory_size (task form screen.now list.now words.now) stream.old }
{
    let s = screen_code::read_screen(screen)?;
    compiler_pass::check_list(form, s, list)?;
    let left = words.len() as u64;
    let used = compiler_pass::first_pass(form, s, list, left)?;
    if used < left {
        return Err(Refusal::WordsLeft.into());
    }
    let count = list.len() as u64 / form as u64;
    let length = 48 + 72 * count + 8 * used;
    if (stream.len() as u64) < length {
        return Err(Refusal::Room.into());
    }
    compiler_pass::put_screen(s, stream);
    compiler_pass::second_pass(form, s, list, words, stream);
    Ok(Compiled {
        length,
        depth: s.depth as u32,
        rotation: s.rotation as u32,
        flag: s.flag as u32,
    })
}

// Where the command stands in the list that an answer refuses; else no bytes, at the list's start.
pub fn part_of<E: Numbered>(form: u32, list: &[u8], c: Result<Compiled, E>) -> Part
    ensures { (result.at ≡ part_from form list.now (compiling_by E.number_in E.place_in c)) × (result.length ≡ part_size form list.now (compiling_by E.number_in E.place_in c)) }
{
    let count = record_code::quotient(list.len() as u64, form as u64);
    match c {
        Err(r) if command_code::names_command(r) & (r.as_place() < count) => Part {
            at: r.as_place() * form as u64,
            length: form as u64,
        },
        _ => Part { at: 0, length: 0 },
    }
}

// The part of the list that an answer refuses; else an empty part, at the list's start.
pub fn refused_part<'a, E: Numbered>(form: u32, list: &'a [u8], c: Result<Compiled, E>) -> &'a [u8]
    ensures { RefusedPart form list.entry result (compiling_by E.number_in E.place_in c) }
{
    let p = part_of(form, list, c);
    let at = p.at as usize;
    let end = at + p.length as usize;
    &list[at..end]
}

// Stores an answer's numbers.
pub fn store<E: Numbered>(answer: &mut [u64; 6], c: Result<Compiled, E>)
    ensures { answer.new ≡ numbers_of (compiling_by E.number_in E.place_in c) }
{
    *answer = match c {
        Ok(c) => [
            0,
            0,
            c.length,
            c.depth as u64,
            c.rotation as u64,
            c.flag as u64,
        ],
        Err(r) => [r.as_number() as u64, r.as_place(), 0, 0, 0, 0],
    };
}

// Compiles, stores the answer's numbers, and hands back the refused command's part of the list.
pub fn compile<'a>(
    form: u32,
    screen: &[u8],
    list: &'a [u8],
    words: &[u16],
    stream: &mut [u8],
    answer: &mut [u64; 6],
) -> &'a [u8]
    ensures refused_part { RefusedPart form list.entry result (compiling memory_size (task form screen.now list.now words.now) (length stream.old)) }
    ensures answer_after { answer.new ≡ numbers_of (compiling memory_size (task form screen.now list.now words.now) (length stream.old)) }
    ensures stream_after { stream.new ≡ buffer_after memory_size (task form screen.now list.now words.now) stream.old }
{
    let c = compile_into(form, screen, list, words, stream);
    store(answer, c);
    refused_part(form, list, c)
}
