// Takes the samples of a text into a ring, and says on standard error which are refused, and why.
#![tactic(auto)]

ghost use Rattle.std.specs.Prelude.{◌≡◌, [], length, replicate};
ghost use Rattle.ring.specs.Kept.{empty_ring, taking, ring_after};
ghost use Rattle.sample.specs.Line.{line_means, with_line, lines_of, samples_of};

use ring::Ring;
use sample::{Sample, Stop};
use std::fmt::Display;

// Room for samples, and one byte more, so that a longer file is seen.
pub fn sample_room() -> [u8; 524289]
    ensures value { result ≡ replicate 524289 0 }
    ensures size { 524289 ≡ length result }
{
    [0; 524289]
}

// Says why the sample of a line is not taken.
fn say_line<D: Display + Drop>(rt: &impl Eprint, line: u64, why: D) {
    let _ = eprintln!(rt; "line {line}: {why}");
}

// Why a sample of a height is refused.
fn why_not(height: u32) -> &'static str {
    if 100 < height {
        "refused 27: height above 100"
    } else {
        "refused 27: not 1 to 512 steps ahead of the newest"
    }
}

// Takes a sample into the ring; where it is refused, its line is said, and why.
fn take(rt: &impl Eprint, ring: &mut Ring, line: u64, s: Sample)
    ensures { ring.new ≡ (taking ring.old s.sequence s.height).ring }
{
    match ring_code::take_sample(*ring, s.sequence, s.height) {
        Ok(taken) => *ring = taken,
        Err(_) => say_line(rt, line, why_not(s.height)),
    }
}

// Takes what a line of text has into the ring.
fn take_line(rt: &impl Eprint, ring: &mut Ring, number: u64, line: &[u8])
    ensures { ring.new ≡ ring_after ring.old (with_line (line_means line.now) []) }
{
    match sample_code::line_means(line) {
        Ok(Some(sample)) => take(rt, ring, number, sample),
        Ok(None) => {}
        Err(no_sample) => say_line(rt, number, no_sample),
    }
}

// The ring after the samples of a text, a line each, from an empty one.
pub fn take_lines(rt: &impl Eprint, text: &[u8]) -> Ring
    ensures { result ≡ ring_after empty_ring (samples_of (lines_of text.now)) }
{
    let mut ring = ring_code::new_ring();
    let mut number: u64 = 0;
    let mut at = 0;
    // The step is a line's length, which is not known before.
    while at < text.len() {
        let n = sample_code::run_end(Stop::LineEnd, &text[at..]);
        number += 1;
        take_line(rt, &mut ring, number, &text[at..at + n]);
        at += n + 1;
    }
    ring
}
