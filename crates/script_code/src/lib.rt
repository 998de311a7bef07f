// What a script is made of: lines, the numbers in a line, and where they are stored.
#![tactic(auto)]

ghost use Rattle.std.specs.Prelude.{◌≡◌, ◌+◌, ◌^◌, ◌<◌, leb};
ghost use Rattle.script.specs.Script.{line_end, number_at, number_put, scan_byte, number_of, fields_put, stored, words_put};

use script::Scan;

// Where the line that begins at `at` ends.
pub fn line_end(text: &[u8], at: usize) -> usize
    ensures { result ≡ line_end text.now at }
{
    for i in at..text.len() {
        if text[i] == b'\n' {
            return i;
        }
    }
    at.max(text.len())
}

// Whether n bytes have four from `at` on.
fn has_four(n: usize, at: usize) -> bool
    ensures { result ≡ leb (at + 4) n }
{
    if n < 4 {
        return false;
    }
    at <= n - 4
}

// The number in four bytes, the lowest first; 0 where they are not all there.
pub fn number_at(bytes: &[u8], at: usize) -> u32
    ensures { result ≡ number_at bytes.now at }
{
    if !has_four(bytes.len(), at) {
        return 0;
    }
    record_code::u32_at(bytes, at)
}

// Stores a number in four bytes, the lowest first, where they are all there.
pub fn put_number(bytes: &mut [u8], at: usize, value: u32)
    ensures { bytes.new ≡ number_put bytes.old at value }
{
    if !has_four(bytes.len(), at) {
        return;
    }
    record_code::put_number(bytes, at, value as u64);
}

// Reads a byte more of a line, for number k.
fn scan_byte(k: usize, s: Scan, b: u8) -> Scan
    requires { s.blanks + 1 < 2 ^ 64 }
    ensures { result ≡ scan_byte k s b }
{
    if b == b' ' {
        return Scan {
            blanks: s.blanks + 1,
            ..s
        };
    }
    if s.blanks != k {
        return s;
    }
    if b == b'h' {
        return Scan { value: s.hex, ..s };
    }
    let x = b as u64;
    let d = x % 16 + x / 64 * 9;
    Scan {
        value: ((s.value as u64 * 10 + d) % 4294967296) as u32,
        hex: ((s.hex as u64 * 16 + d) % 4294967296) as u32,
        ..s
    }
}

// Number k of a line, from 0 on; 0 where it has none.
pub fn number(line: &[u8], k: usize) -> u32
    ensures { result ≡ number_of line.now k }
{
    let mut s = Scan {
        value: 0,
        hex: 0,
        blanks: 0,
    };
    for i in 8..line.len() {
        s = scan_byte(k, s, line[i]);
    }
    s.value
}

// Stores a line's numbers at these places.
pub fn put_fields(line: &[u8], places: &[usize], bytes: &mut [u8])
    ensures { bytes.new ≡ fields_put line.now 0 places.now bytes.old }
{
    for (i, place) in places.iter().enumerate() {
        put_number(bytes, *place, number(line, i));
    }
}

// Stores a line's second number at the address that is its first.
pub fn store(line: &[u8], bytes: &mut [u8])
    ensures { bytes.new ≡ stored line.now bytes.old }
{
    put_number(bytes, number(line, 0) as usize, number(line, 1));
}

// Stores a line's third number in the words from its first to its second.
pub fn put_words(line: &[u8], words: &mut [u16])
    ensures { words.new ≡ words_put line.now words.old }
{
    let first = number(line, 0) as usize;
    let end = words.len().min(number(line, 1) as usize + 1);
    let word = (number(line, 2) % 65536) as u16;
    if first < end {
        words[first..end].fill(word);
    }
}
