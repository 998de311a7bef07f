// A script of worked examples: its lines, what each step leaves, and whether it is as the papers have it.
#![tactic(auto)]

// A line that is read as far as a number: the number as decimal and as hexadecimal, and the blanks passed.
#[derive(Clone, Copy)]
pub struct Scan {
    pub value: u32,
    pub hex: u32,
    pub blanks: usize,
}

// Whether all lines since an example's first were as the papers have them, and whether all were.
#[derive(Clone, Copy)]
pub struct Tally {
    pub example: bool,
    pub all: bool,
}
