// Runs a script of worked examples from standard input (`stdin`, which says what its steps are): each is compiled and played,
// and the register values and the panel points are held against the paper's. Writes each example's name, the lines that
// differ, and the verdict; and at the end whether all was as the papers have it.
#![tactic(auto)]

ghost use Rattle.io.specs.Counts.{IsPrefixLen};

use compiler::Compiled;
use refusal::{Refusal, Refused};
use script::Tally;
use std::io::Read;

fn main(rt: HostRuntime) {
    let mut script = io::large_buffer();
    let n = read_script(&mut rt.reader(), &mut script);
    run(&rt, &script[..n]);
}

// Reads until the buffer is full, the input ends or a read fails; answers how many bytes stand at the buffer's start.
fn read_script(input: &mut impl Read, script: &mut [u8]) -> usize
    ensures { IsPrefixLen result script.new }
{
    let mut done = 0;
    // The step is what was read. `files::read_full` answers an error in place of what was read before it.
    while done < script.len() {
        let n = input.read(&mut script[done..]).unwrap_or(0);
        if n == 0 {
            break;
        }
        done += n;
    }
    done
}

// Writes a text.
fn write(rt: &impl Print, text: &[u8]) {
    let _ = rt.write_all(text);
}

// Writes one of two texts.
fn write_either(rt: &impl Print, ok: bool, yes: &[u8], no: &[u8]) {
    if ok {
        write(rt, yes);
    } else {
        write(rt, no);
    }
}

// Writes an example's name, a line that is not as the papers have it, and at an example's end whether all of it was.
fn write_line(rt: &impl Print, k: u32, line: &[u8], ok: bool, example: bool) {
    if k == script_steps::EXAMPLE && 8 <= line.len() {
        write(rt, &line[8..]);
    }
    if !ok {
        write(rt, b"\n  differs: ");
        write(rt, line);
    }
    if k == script_verdict::DONE {
        write_either(rt, example, b": ok\n", b"\n: differs\n");
    }
}

// Writes whether all was as the papers have it.
fn write_end(rt: &impl Print, all: bool) {
    write_either(rt, all, b"all ok\n", b"not all ok\n");
}

// Takes the steps, line by line. Each function does its part of a step, if it has one.
fn run(rt: &impl Print, script: &[u8]) {
    let mut desk = [0u8; 92];
    let mut words = [0u16; 1001];
    let mut stream = [0u8; 16384];
    let mut memory = script_steps::zeros();
    let mut kept = script_steps::zeros();
    // Before the first step: an empty stream, and nothing played.
    let mut compiled: Result<Compiled, Refused> = Ok(Compiled {
        length: 0,
        depth: 0,
        rotation: 0,
        flag: 0,
    });
    let mut played = Err(Refused::from(Refusal::StreamLength));
    let mut tally = Tally {
        example: true,
        all: true,
    };
    let mut at = 0;
    // The step is a line's length, which is not known before.
    while at < script.len() {
        let end = script_code::line_end(script, at);
        let line = &script[at..end];
        at = end + 1;
        let k = script_code::number_at(line, 0);
        script_steps::set_desk(k, line, &mut desk);
        script_steps::set_words(k, line, &mut words);
        script_steps::patch(k, line, &mut stream);
        script_steps::keep(k, &memory, &mut kept);
        script_steps::set_memory(k, line, &mut memory);
        compiled = script_steps::compile(k, compiled, &desk, &words, &mut stream);
        played = script_steps::play(k, played, compiled, &stream, &mut memory);
        let ok = script_verdict::check_line(
            k, line, compiled, played, &desk, &stream, &memory, &kept,
        );
        tally = script_verdict::judge(k, tally, ok);
        write_line(rt, k, line, ok, tally.example);
    }
    write_end(rt, tally.all);
}
