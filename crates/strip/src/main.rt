// strip SCREEN SAMPLES HOURS COLUMN X Y BAR BACKGROUND [SITE]
// Takes the samples of a text file, oldest first, and writes what the panel shows of the last hours to standard output: a picture as
// the program `panel` writes it, on a display memory of zeros. The newest hour is the rightmost column, and the newest sequence number
// stands below. A refusal is the one line `refused NUMBER PLACE: REASON`. Where a file cannot be read, or an argument is no number,
// standard output stays empty.
//
// SCREEN: a screen record, of depth 8 or 16, upright or turned. SAMPLES: a line for each sample, sequence number and height in decimal with
// spaces between them, at most 524,288 bytes; a line whose sample is refused, or that has none, is said on standard error, and left out.
// HOURS: how many, 1 to 24. COLUMN: a column's width in pixels, 1 to 16. X, Y: the strip's upper left corner. BAR, BACKGROUND: colours.
// SITE: a font of the site, 8 bytes for each digit from 0 on; for digits that it has not, and without it, our factory font is used.
#![tactic(auto)]

ghost use Rattle.std.specs.Prelude.{◌≡◌};
ghost use Rattle.strip.specs.Short.{short_of};

use std::rt::{Env, Files};
use wear::Ask;

// A number as one of 16 bits, if it is one.
fn short_of(a: Option<u32>) -> Option<u16>
    ensures { result ≡ short_of a }
{
    u16::try_from(a?).ok()
}

// Takes the samples, and shows the strip with a site font on a memory of zeros.
fn run_with(rt: &(impl Print + Eprint), a: Ask, site: &[u8], screen: &[u8], samples: &[u8]) {
    let mut memory = files::memory();
    let ring = strip_take::take_lines(rt, samples);
    strip_show::show_strip(rt, ring, a, site, screen, &mut memory[..262144]);
}

// Reads the site font, the ninth argument.
fn run_on(rt: &(impl Env + Files + Print + Eprint), a: Ask, screen: &[u8], samples: &[u8]) {
    let mut site = [0u8; 80];
    if files::is_left_out(rt, 9) {
        run_with(rt, a, &[], screen, samples);
        return;
    }
    let Some(n) = files::load(rt, 9, &mut site) else {
        return;
    };
    run_with(rt, a, &site[..n], screen, samples);
}

// Reads the screen record and the samples, the first and the second argument.
fn run_for(rt: &(impl Env + Files + Print + Eprint), a: Ask) {
    let mut screen = [0u8; 33];
    let Some(ns) = files::load(rt, 1, &mut screen) else {
        return;
    };
    let mut samples = strip_take::sample_room();
    let Some(nt) = files::load(rt, 2, &mut samples) else {
        return;
    };
    if 524288 < nt {
        files::say(rt, b"samples", b"more than 524288 bytes");
        return;
    }
    run_on(rt, a, &screen[..ns], &samples[..nt]);
}

// The ask of the third to the eighth argument, which the screen gives its depth; none where one is no number of its kind.
fn asked(rt: &impl Env) -> Option<Ask> {
    Some(Ask {
        hours: files::number(rt, 3)?,
        depth: 0,
        x: short_of(files::number(rt, 5))?,
        y: short_of(files::number(rt, 6))?,
        column: files::number(rt, 4)?,
        bar: short_of(files::number(rt, 7))?,
        background: short_of(files::number(rt, 8))?,
    })
}

fn main(rt: HostRuntime) {
    let count = files::arg_count(&rt);
    if count < 9 || 10 < count {
        files::say(
            &rt,
            b"usage",
            b"strip SCREEN SAMPLES HOURS COLUMN X Y BAR BACKGROUND [SITE]",
        );
        return;
    }
    let Some(ask) = asked(&rt) else {
        files::say(
            &rt,
            b"strip",
            b"HOURS, COLUMN, X, Y, BAR and BACKGROUND are numbers, the last four at most 65535",
        );
        return;
    };
    run_for(&rt, ask);
}
