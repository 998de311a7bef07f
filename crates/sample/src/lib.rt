// Samples as text: what a line of a samples file means.
#![tactic(auto)]

use std::error::Error;
use std::fmt;

// What ends a run of letters: a space, a letter that is none, or a line end.
#[derive(Clone, Copy)]
pub enum Stop {
    Space,
    Ink,
    LineEnd,
}

// A sample as a line gives it.
#[derive(Clone, Copy)]
pub struct Sample {
    pub sequence: u16,
    pub height: u32,
}

// A line that is neither a sample nor spaces alone.
#[derive(Clone, Copy, Debug)]
pub struct NoSample;

impl fmt::Display for NoSample {
    fn fmt<W: fmt::Write>(&self, f: &mut fmt::Formatter<W>) -> fmt::Result {
        write!(f, "no sample: not a number of at most 65535 and a height")
    }
}

impl Error for NoSample {}
