// compile [--long] SCREEN LIST [WORDS]
// compile [--long] 13706 SCREEN [LIST [WORDS]]
// Compiles the screen record, the command list and the host words of the named files, and prints the stream, a line for each
// record: its number and its value. A refusal is the one line `refused NUMBER PLACE: REASON` and, for 12 to 15 and 29, a line with the
// bytes of the refused command. Where a file cannot be read, or its words not be taken, standard output stays empty.
//
// --long: LIST has records of 48 bytes. The word 13706 compiles for the older S1D13706 (a file of that name is ./13706, one called --long is ./--long), whose LIST is empty where it is left out or
// `-`. WORDS: two bytes a word, low byte first, at most 262,144 words; none where it is left out or `-`. The stream: at most
// 2,097,152 bytes, else 17. The buffers are on the stack.
#![tactic(auto)]

ghost use Rattle.std.specs.Prelude.{◌≡◌, length};
ghost use Rattle.command.specs.Task.{task};
ghost use Rattle.compiler.specs.Compile.{compiling_of};
ghost use Rattle.compiler.specs.Part.{RefusedPart};
ghost use Rattle.files.specs.System.{YesOrNo, LoadedBytes};
ghost use Rattle.compile.specs.Chip.{compiling_for, buffer_for};

use compiler::Compiled;
use refusal::Refused;
use std::rt::{Env, Files};

// Prints the lines of a part of a stream, at most 1,024 of them; answers whether it could.
fn print_lines(rt: &(impl Print + Eprint), part: &[u8]) -> bool
    ensures { YesOrNo result }
{
    let mut buffer = [0u8; 18432];
    let n = text_lines::put_lines(part, &mut buffer);
    files::print(rt, &buffer[..n])
}

// Prints the lines of a stream.
fn print_stream(rt: &(impl Print + Eprint), stream: &[u8]) {
    for part in stream.chunks(8192) {
        if !print_lines(rt, part) {
            return;
        }
    }
}

// Prints the bytes of a refused command, if there is one.
fn print_part(rt: &(impl Print + Eprint), part: &[u8]) {
    if part.is_empty() {
        return;
    }
    let mut bytes = [b' '; 144];
    let n = text_lines::put_bytes(part, &mut bytes);
    bytes[n - 1] = b'\n';
    files::print(rt, &bytes[..n]);
}

// Compiles for the S1D13706 or the S1D13A05, and hands back the refused command's part of the list beside the answer.
fn compile_for<'a>(
    older: bool,
    form: u32,
    screen: &[u8],
    list: &'a [u8],
    words: &[u16],
    stream: &mut [u8],
) -> (Result<Compiled, Refused>, &'a [u8])
    ensures value { compiling_of result.0 ≡ compiling_for older (task form screen.now list.now words.now) (length stream.old) }
    ensures refused_part { RefusedPart form list.entry result.1 (compiling_for older (task form screen.now list.now words.now) (length stream.old)) }
    ensures stream_after { stream.new ≡ buffer_for older (task form screen.now list.now words.now) stream.old }
{
    let answer = if older {
        older_code::compile_into(form, screen, list, words, stream)
    } else {
        compiler_code::compile_into(form, screen, list, words, stream)
    };
    (answer, compiler_code::refused_part(form, list, answer))
}

// Compiles, and prints the stream or the refusal.
fn run(
    rt: &(impl Print + Eprint),
    older: bool,
    form: u32,
    screen: &[u8],
    list: &[u8],
    words: &[u16],
) {
    let mut stream = files::stream();
    let (answer, part) = compile_for(older, form, screen, list, words, &mut stream);
    match answer {
        Ok(c) => {
            let n = c.length as usize;
            print_stream(rt, &stream[..n]);
        }
        Err(why) => {
            files::print_refusal(rt, why);
            print_part(rt, part);
        }
    }
}

// Reads the list of the file that argument i names; the S1D13706's is empty where it is left out.
fn load_list(
    rt: &(impl Env + Files + Eprint),
    older: bool,
    i: usize,
    list: &mut [u8],
) -> Option<usize>
    ensures { LoadedBytes list.old list.new result }
{
    if older && files::is_left_out(rt, i) {
        return Some(0);
    }
    files::load(rt, i, list)
}

fn main(rt: HostRuntime) {
    let long = files::is_word(&rt, 1, b"--long");
    let next = files::behind(1, long, 1);
    let older = files::is_word(&rt, next, b"13706");
    let first = files::behind(next, older, 1);
    let count = files::arg_count(&rt);
    if count < next + 2 || first + 3 < count {
        files::say(
            &rt,
            b"usage",
            b"compile [--long] SCREEN LIST [WORDS], or compile [--long] 13706 SCREEN [LIST [WORDS]]",
        );
        return;
    }
    let mut screen = [0u8; 33];
    let Some(ns) = files::load(&rt, first, &mut screen) else {
        return;
    };
    let mut list = files::list();
    let Some(nl) = load_list(&rt, older, first + 1, &mut list) else {
        return;
    };
    let mut words = files::words();
    let Some(nw) = files::load_words(&rt, first + 2, &mut words) else {
        return;
    };
    run(
        &rt,
        older,
        files::form_of(long),
        &screen[..ns],
        &list[..nl],
        &words[..nw],
    );
}
