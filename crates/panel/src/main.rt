// panel [--long] [--at P Q] SCREEN LIST [WORDS [MEMORY [VIEW]]]
// Draws the command list and the host words of the named files over a display memory, and writes what the panel then shows
// to standard output: a grey picture (PGM, P5) at depths 1 to 8, a colour picture (PPM, P6) at depth 16. A refusal is the one
// line `refused NUMBER PLACE: REASON`. Where a file cannot be read, or its words not be taken, standard output stays empty.
//
// --long: LIST has records of 48 bytes.
//
// --at P Q: in place of the picture the one line `colour COLOUR address ADDRESS bit BIT` of panel point (P, Q), column and line:
// its pixel's colour, the address of its byte, and the place of its highest bit there. P and Q are one to nine digits; where they
// are not, standard output stays empty. (A file called --at is ./--at, one called --long ./--long.)
//
// WORDS: two bytes a word, low byte first, at most 262,144 words; none where it is left out or `-`. MEMORY: 262,144 bytes
// before the drawing; zeros where it is left out or `-`. VIEW: another screen record, whose panel is shown over the memory
// that was drawn on SCREEN; SCREEN's own where it is left out or `-`. The stream: at most 2,097,152 bytes, else 17. The
// buffers are on the stack.
#![tactic(auto)]

ghost use Rattle.std.specs.Prelude.{◌≤◌};

use panel_show::Asked;
use std::rt::{Env, Files};

// Reads the host words, the memory and the view, the third, fourth and fifth file, and runs.
fn run_with(
    rt: &(impl Env + Files + Print + Eprint),
    asked: Asked,
    form: u32,
    first: usize,
    screen: &[u8],
    list: &[u8],
)
    requires { first ≤ 5 }
{
    let mut words = files::words();
    let Some(nw) = files::load_words(rt, first + 2, &mut words) else {
        return;
    };
    let mut memory = files::memory();
    let Some(nm) = files::load_memory(rt, first + 3, &mut memory) else {
        return;
    };
    let words = &words[..nw];
    let memory = &mut memory[..nm];
    if files::is_left_out(rt, first + 4) {
        panel_show::run(rt, asked, form, screen, list, words, memory);
        return;
    }
    let mut view = [0u8; 33];
    let Some(nv) = files::load(rt, first + 4, &mut view) else {
        return;
    };
    panel_show::run_through(rt, asked, form, screen, list, words, &view[..nv], memory);
}

// Reads the screen record and the list, which the arguments from `first` on name, and then the other files.
fn run_from(rt: &(impl Env + Files + Print + Eprint), asked: Asked, form: u32, first: usize)
    requires { first ≤ 5 }
{
    let mut screen = [0u8; 33];
    let Some(ns) = files::load(rt, first, &mut screen) else {
        return;
    };
    let mut list = files::list();
    let Some(nl) = files::load(rt, first + 1, &mut list) else {
        return;
    };
    run_with(rt, asked, form, first, &screen[..ns], &list[..nl]);
}

// The point of arguments i and i + 1; none where one is no number.
fn point_at(rt: &impl Env, i: usize) -> Option<Asked>
    requires { i ≤ 5 }
{
    Some(Asked::Point(files::number(rt, i)?, files::number(rt, i + 1)?))
}

fn main(rt: HostRuntime) {
    let long = files::is_word(&rt, 1, b"--long");
    let next = files::behind(1, long, 1);
    let at = files::is_word(&rt, next, b"--at");
    let first = files::behind(next, at, 3);
    let count = files::arg_count(&rt);
    if count < first + 2 || first + 5 < count {
        files::say(
            &rt,
            b"usage",
            b"panel [--long] [--at P Q] SCREEN LIST [WORDS [MEMORY [VIEW]]]",
        );
        return;
    }
    let mut asked = Asked::Picture;
    if at {
        let Some(point) = point_at(&rt, next + 1) else {
            files::say(&rt, b"--at", b"P and Q are one to nine digits each");
            return;
        };
        asked = point;
    }
    run_from(&rt, asked, files::form_of(long), first);
}
