// What the programs share: the files, words and numbers of their arguments, their buffers, and what they write. The contents of a file,
// and whether it can be read or written, are the system's: a contract names them, and says what holds of them.
#![tactic(auto)]

mod reason;

ghost use Rattle.std.specs.Prelude.{◌≡◌, cond, ◌+◌, ◌≤◌, length, replicate, IfOk};
ghost use Rattle.io.specs.Counts.{IsPrefixLen};
ghost use Rattle.files.specs.System.{YesOrNo, LoadedBytes, LoadedWords, LoadedMemory, GivenNumber};

use reason::{Failure, Line};
use refusal::Refused;
use std::env::FillError;
use std::fs;
use std::io::{Error, Read, Result};
use std::rt::{Env, Files};

// The most host words that a program takes.
const MOST_WORDS: usize = 262144;

// The system's numbers for an argument that is missing, and for one that is too long.
const MISSING: i32 = 22;

const TOO_LONG: i32 = 36;

// Each room has a function of its own: one for any type and size would leave its size, and why, to each caller.
//
// Room for a list of 64 commands in the long form, and one byte more, so that a longer file is seen.
pub fn list() -> [u8; 3073]
    ensures value { result ≡ replicate 3073 0 }
    ensures size { 3073 ≡ length result }
{
    [0; 3073]
}

// Bytes of a word file, one more than the most, so that a longer file is seen.
fn word_bytes() -> [u8; 524289]
    ensures value { result ≡ replicate 524289 0 }
    ensures size { 524289 ≡ length result }
{
    [0; 524289]
}

// Room for 262,144 host words.
pub fn words() -> [u16; 262144]
    ensures value { result ≡ replicate 262144 0 }
    ensures size { 262144 ≡ length result }
{
    [0; 262144]
}

// Room for a stream of 2 MiB: 262,144 records.
pub fn stream() -> [u8; 2097152]
    ensures value { result ≡ replicate 2097152 0 }
    ensures size { 2097152 ≡ length result }
{
    [0; 2097152]
}

// Room for a display memory, and one byte more, so that a longer file is seen.
pub fn memory() -> [u8; 262145]
    ensures value { result ≡ replicate 262145 0 }
    ensures size { 262145 ≡ length result }
{
    [0; 262145]
}

// Writes a line to standard error: what is wrong, and how.
pub fn say(rt: &impl Eprint, what: &[u8], how: &[u8]) {
    let _ = rt.eprintln(Line { what, how });
}

// Writes a line to standard error: what failed, and the system's reason.
fn fail(rt: &impl Eprint, what: &[u8], why: Error) {
    let _ = rt.eprintln(Failure { what, why });
}

// Writes bytes to standard output, or says on standard error why it could not; answers whether it could.
pub fn print(rt: &(impl Print + Eprint), text: &[u8]) -> bool
    ensures { YesOrNo result }
{
    if let Err(why) = rt.write_all(text) {
        fail(rt, b"standard output", why);
        return false;
    }
    true
}

// Writes the line of a refusal, at most 128 bytes.
pub fn print_refusal(rt: &(impl Print + Eprint), why: Refused) {
    let mut line = [0u8; 128];
    let number = why.refusal.number() as u64;
    let n = text_code::put_refusal(number, why.place, &mut line);
    print(rt, &line[..n]);
}

// Reads until the buffer is full or the input ends; answers how many bytes stand at the buffer's start.
pub fn read_full(input: &mut impl Read, buffer: &mut [u8]) -> Result<usize>
    ensures { IfOk result (λ n. IsPrefixLen n buffer.new) }
{
    let mut done = 0;
    // A read takes as many bytes as it takes, so the step is not known.
    while done < buffer.len() {
        let n = input.read(&mut buffer[done..])?;
        if n == 0 {
            break;
        }
        done += n;
    }
    Ok(done)
}

// Reads the file of a name into the buffer, as much of it as there is room for; answers how many bytes.
fn read_file(rt: &impl Files, name: &str, buffer: &mut [u8]) -> Result<usize>
    ensures { IfOk result (λ n. IsPrefixLen n buffer.new) }
{
    let mut file = fs::open(rt, name)?;
    read_full(&mut file, buffer)
}

// Reads a file into the buffer, as much of it as there is room for; or says why it cannot be read.
fn load_path(rt: &(impl Files + Eprint), path: &[u8], buffer: &mut [u8]) -> Option<usize>
    ensures { LoadedBytes buffer.old buffer.new result }
{
    let Ok(name) = str::from_utf8(path) else {
        say(rt, b"argument", b"not UTF-8");
        return None;
    };
    match read_file(rt, name, buffer) {
        Ok(n) => Some(n),
        Err(why) => {
            fail(rt, path, why);
            None
        }
    }
}

// Reads the file that argument i names.
pub fn load(rt: &(impl Env + Files + Eprint), i: usize, buffer: &mut [u8]) -> Option<usize>
    ensures { LoadedBytes buffer.old buffer.new result }
{
    let mut path = [0u8; 4096];
    match rt.arg(i, &mut path) {
        Ok(n) => load_path(rt, &path[..n], buffer),
        Err(why) => {
            fail(rt, b"argument", argument_error(why));
            None
        }
    }
}

// Why argument i cannot be had, as the system says it.
fn argument_error(why: FillError) -> Error {
    match why {
        FillError::NotPresent => Error::from_raw_os_error(MISSING),
        FillError::TooLong => Error::from_raw_os_error(TOO_LONG),
    }
}

// How many arguments there are, the program's name among them.
pub fn arg_count(rt: &impl Env) -> usize {
    let mut one = [0u8; 1];
    for i in 0..usize::MAX {
        if let Err(FillError::NotPresent) = rt.arg(i, &mut one) {
            return i;
        }
    }
    usize::MAX
}

// Stores argument i; answers its bytes, 0 where there is none or it has no room.
fn argument(rt: &impl Env, i: usize, path: &mut [u8]) -> usize
    ensures { IsPrefixLen result path.new }
{
    rt.arg(i, path).unwrap_or(0)
}

// Whether argument i is a word.
pub fn is_word(rt: &impl Env, i: usize, word: &[u8]) -> bool
    ensures { YesOrNo result }
{
    let mut path = [0u8; 4096];
    let n = argument(rt, i, &mut path);
    check::same(&path[..n], word)
}

// The form of a list: that of 48-byte records where the arguments say so, else that of 32-byte records.
pub fn form_of(long: bool) -> u32
    ensures { result ≡ cond long 48 32 }
{
    if long { 48 } else { 32 }
}

// The next argument: the n-th behind argument i where that is a word, which with what it asks for has n places; else argument i itself.
pub fn behind(i: usize, word: bool, n: usize) -> usize
    requires { (i ≤ 4) × (n ≤ 4) }
    ensures value { result ≡ cond word (i + n) i }
    ensures upper_bound { result ≤ i + n }
{
    if word { i + n } else { i }
}

// Whether argument i is left out: there is none, or it is a single `-`.
pub fn is_left_out(rt: &impl Env, i: usize) -> bool
    ensures { YesOrNo result }
{
    arg_count(rt) <= i || is_word(rt, i, b"-")
}

// Reads the host words of the file that argument i names, two bytes each; none where it is left out.
pub fn load_words(
    rt: &(impl Env + Files + Eprint),
    i: usize,
    words: &mut [u16; 262144],
) -> Option<usize>
    ensures { LoadedWords words.old words.new result }
{
    if is_left_out(rt, i) {
        return Some(0);
    }
    let mut bytes = word_bytes();
    let n = load(rt, i, &mut bytes)?;
    if 2 * MOST_WORDS < n {
        say(rt, b"host words", b"more than 262144");
        return None;
    }
    if n % 2 != 0 {
        say(rt, b"host words", b"an odd number of bytes");
        return None;
    }
    Some(text_lines::words_of(&bytes[..n], words))
}

// The display memory of the file that argument i names; 262,144 bytes as they are where it is left out.
pub fn load_memory(rt: &(impl Env + Files + Eprint), i: usize, memory: &mut [u8]) -> Option<usize>
    ensures { LoadedMemory memory.old memory.new result }
{
    if is_left_out(rt, i) {
        return Some(memory.len().min(262144));
    }
    load(rt, i, memory)
}

// The number that argument i gives: none where it is left out or longer than a path.
pub fn number(rt: &impl Env, i: usize) -> Option<u32>
    ensures { GivenNumber result }
{
    let mut path = [0u8; 4096];
    let n = argument(rt, i, &mut path);
    text_lines::number_of(&path[..n])
}
