// Lines of standard error: what is wrong, and how or why.

use std::fmt;
use std::fmt::Write;
use std::io::Error;

// What is wrong, and how.
#[derive(Drop)]
pub struct Line<'a> {
    pub what: &'a [u8],
    pub how: &'a [u8],
}

// What failed, and the system's error.
#[derive(Drop)]
pub struct Failure<'a> {
    pub what: &'a [u8],
    pub why: Error,
}

// Bytes as text; another text where they are none.
fn shown(bytes: &[u8]) -> &str {
    match str::from_utf8(bytes) {
        Ok(text) => text,
        Err(_) => "(not UTF-8)",
    }
}

impl fmt::Display for Line<'_> {
    fn fmt<W: fmt::Write>(&self, f: &mut fmt::Formatter<W>) -> fmt::Result {
        let what = shown(self.what);
        let how = shown(self.how);
        write!(f, "{what}: {how}")
    }
}

// A text of at most 256 bytes, cut there. No heap: it is written into a buffer, with how much of it is taken beside it.
#[derive(Drop)]
struct Cut {
    room: [u8; 256],
    n: usize,
}

impl fmt::Write for Cut {
    fn write_str(&mut self, s: &str) -> fmt::Result {
        self.n = text_code::put(&mut self.room, self.n, s.as_bytes());
        Ok(())
    }
}

// The error's text, without the system's number behind it.
impl fmt::Display for Failure<'_> {
    fn fmt<W: fmt::Write>(&self, f: &mut fmt::Formatter<W>) -> fmt::Result {
        let why = self.why;
        let mut cut = Cut {
            room: [0; 256],
            n: 0,
        };
        write!(cut, "{why}")?;
        let n = cut.n.min(256);
        let what = shown(self.what);
        let all = shown(&cut.room[..n]);
        match all.split_once(" (os error ") {
            Some((reason, _)) => write!(f, "{what}: {reason}"),
            None => write!(f, "{what}: {all}"),
        }
    }
}
