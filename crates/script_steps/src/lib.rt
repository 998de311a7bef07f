// What each step of a script leaves: on the desk, in the host words, the stream and the memories, and as the answers of compiling
// and playing.
//
// The desk holds the screen record, from byte 32 on a command with room for the long form, at 80 how many commands there are (0 or 1), at 84
// how many host words, and at 88 whether the list is in the long form.
#![tactic(auto)]

ghost use Rattle.std.specs.Prelude.{◌≡◌, ◌≤◌, length, replicate};
ghost use Rattle.compiler.specs.Compile.{compiling_by};
ghost use Rattle.refusal.specs.Number.{told_by};
ghost use Rattle.script.specs.Steps.{form_on, desk_after, words_after, stream_patched, keeps, kept_after, memory_after, compiled_after, stream_after, played_after, memory_played};

use compiler::Compiled;
use refusal::{Numbered, Refused, Told};
use screen::ScreenValues;

// The steps that leave something: the first four letters of a line as a number, the first letter lowest. They stay numbers, since the
// functions' contracts and the definitions of script name them so.
pub const SCREEN: u32 = 0x65726373;

pub const COMMAND: u32 = 0x6D6D6F63;

pub const LONG: u32 = 0x676E6F6C;

pub const WORD: u32 = 0x64726F77;

pub const STORE: u32 = 0x726F7473;

pub const PATCH: u32 = 0x63746170;

pub const EXAMPLE: u32 = 0x6D617865;

pub const KEEP: u32 = 0x7065656B;

pub const COMPILE: u32 = 0x706D6F63;

pub const OLDER: u32 = 0x65646C6F;

pub const PLAY: u32 = 0x79616C70;

// Where on the desk the numbers of commands and of host words are, and whether the list is in the long form.
const COMMANDS: usize = 80;

const WORDS: usize = 84;

const FORM: usize = 88;

// Where a screen line's numbers go; the last two are left out there, and so are 0.
const SCREEN_PLACES: [usize; 13] = [0, 1, 2, 4, 6, 8, 12, 16, 18, 20, 22, COMMANDS, WORDS];

// Where a command line's numbers go; the last is left out there.
const COMMAND_PLACES: [usize; 12] = [32, 33, 34, 36, 38, 40, 42, 44, 46, 48, WORDS, FORM];

// Where a long line's numbers go.
const LONG_PLACES: [usize; 4] = [64, 66, 67, 68];

// A memory of zeros.
pub fn zeros() -> [u8; 262144]
    ensures { result ≡ replicate 262144 0 }
{
    [0; 262144]
}

// Sets what is compiled.
pub fn set_desk(k: u32, line: &[u8], desk: &mut [u8; 92])
    ensures { desk.new ≡ desk_after k line.now desk.old }
{
    match k {
        SCREEN => script_code::put_fields(line, &SCREEN_PLACES, desk),
        COMMAND => {
            script_code::put_fields(line, &COMMAND_PLACES, desk);
            script_code::put_number(desk, COMMANDS, 1);
        }
        LONG => {
            script_code::put_fields(line, &LONG_PLACES, desk);
            script_code::put_number(desk, FORM, 1);
        }
        _ => {}
    }
}

// Sets host words.
pub fn set_words(k: u32, line: &[u8], words: &mut [u16; 1001])
    ensures { words.new ≡ words_after k line.now words.old }
{
    if k == WORD {
        script_code::put_words(line, words);
    }
}

// Stores a number in the stream.
pub fn patch(k: u32, line: &[u8], stream: &mut [u8; 16384])
    ensures { stream.new ≡ stream_patched k line.now stream.old }
{
    if k == PATCH {
        script_code::store(line, stream);
    }
}

// Whether a step keeps the memory, and leaves zeros.
fn does_keep(k: u32) -> bool
    ensures { result ≡ keeps k }
{
    matches!(k, EXAMPLE | KEEP)
}

// Keeps the memory.
pub fn keep(k: u32, memory: &[u8; 262144], kept: &mut [u8; 262144])
    ensures { kept.new ≡ kept_after k memory.now kept.old }
{
    if does_keep(k) {
        *kept = *memory;
    }
}

// Begins a new memory, or stores a number in it.
pub fn set_memory(k: u32, line: &[u8], memory: &mut [u8; 262144])
    ensures { memory.new ≡ memory_after k line.now memory.old }
{
    if does_keep(k) {
        *memory = zeros();
        return;
    }
    if k == STORE {
        script_code::store(line, memory);
    }
}

// The form of the list on the desk.
fn form_on(desk: &[u8]) -> u32
    ensures { (result ≡ form_on desk.now) × (result ≤ 48) }
{
    if script_code::number_at(desk, FORM) == 0 {
        return 32;
    }
    48
}

// An answer, as it tells of a refusal.
#[tactic(auto, unfolding(refusal::specs::Number::told_by))]
fn told<A: Copy, E: Told>(answer: Result<A, Refused>) -> Result<A, E>
    ensures { result ≡ told_by E.told answer }
{
    match answer {
        Ok(a) => Ok(a),
        Err(refused) => Err(E::tell(refused)),
    }
}

// Compiles what is on the desk, at a step that says so, for the S1D13A05 or the older S1D13706; else the old answer.
pub fn compile<E: Told>(
    k: u32,
    old: Result<Compiled, E>,
    desk: &[u8; 92],
    words: &[u16; 1001],
    stream: &mut [u8; 16384],
) -> Result<Compiled, E>
    ensures value { result ≡ compiled_after E.told k old desk.now words.now (length stream.old) }
    ensures stream_after { stream.new ≡ stream_after k desk.now words.now stream.old }
{
    let bytes = &desk[..];
    let all = &words[..];
    let n = (script_code::number_at(bytes, WORDS) as usize).min(all.len());
    let form = form_on(bytes);
    let end = 32 + (form * (script_code::number_at(bytes, COMMANDS) % 2)) as usize;
    let screen = &bytes[..32];
    let list = &bytes[32..end];
    let taken = &all[..n];
    match k {
        COMPILE => told(compiler_code::compile_into(form, screen, list, taken, stream)),
        OLDER => told(older_code::compile_into(form, screen, list, taken, stream)),
        _ => old,
    }
}

// The stream's length in bytes; 0 where there is none.
#[tactic(auto, unfolding(compiler::specs::Compile::compiling_by))]
pub fn size_of<E: Numbered>(c: Result<Compiled, E>) -> u64
    ensures { result ≡ (compiling_by E.number_in E.place_in c).length }
{
    match c {
        Ok(compiled) => compiled.length,
        Err(_) => 0,
    }
}

// Plays the stream over the memory, at a step that says so; else the old answer.
pub fn play<E: Told, C: Numbered>(
    k: u32,
    old: Result<ScreenValues, E>,
    c: Result<Compiled, C>,
    stream: &[u8; 16384],
    memory: &mut [u8; 262144],
) -> Result<ScreenValues, E>
    ensures value { result ≡ played_after E.told k old (compiling_by C.number_in C.place_in c) stream.now memory.old }
    ensures memory_after { memory.new ≡ memory_played k (compiling_by C.number_in C.place_in c) stream.now memory.old }
{
    if k != PLAY {
        return old;
    }
    let all = &stream[..];
    let n = (size_of(c) as usize).min(all.len());
    told(chip_code::play(&all[..n], memory))
}
