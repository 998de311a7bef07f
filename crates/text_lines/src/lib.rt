// What the programs write and read besides: a stream as lines of text, bytes in hexadecimal, host words from bytes, and numbers.
#![tactic(auto)]

ghost use Rattle.std.specs.Prelude.{◌≡◌, ◌*◌, ◌/◌, ◌%◌, ◌≤◌, ◌++◌, min, length};
ghost use Rattle.std.proofs.lemmas.List.Edits.{sets};
ghost use Rattle.io.specs.Counts.{IsPrefixLen};
ghost use Rattle.io.specs.Digits.{last_digits, hex_digit_ascii};
ghost use Rattle.text.specs.Text.{letters, Stored};
ghost use Rattle.text.specs.Lines.{joined, record_line, stream_line, hex_byte, word_of};
ghost use Rattle.text.specs.Numbers.{number_of};

use record::Record;
use text_code::put;

// The letter of a number's last hexadecimal digit.
fn letter(x: u32) -> u8
    ensures { result ≡ hex_digit_ascii (x % 16) }
{
    let d = x % 16;
    if d < 10 { 48 + d as u8 } else { 87 + d as u8 }
}

// The last eight hexadecimal digits of a number, without a loop: io::hex divides for each digit.
fn eight(n: u32) -> [u8; 8]
    ensures { result ≡ last_digits 16 8 n }
{
    let a = n / 16;
    let b = a / 16;
    let c = b / 16;
    let d = c / 16;
    let e = d / 16;
    let f = e / 16;
    let g = f / 16;
    [
        letter(g),
        letter(f),
        letter(e),
        letter(d),
        letter(c),
        letter(b),
        letter(a),
        letter(n),
    ]
}

// Stores a number's last `width` hexadecimal digits.
fn put_hex(text: &mut [u8], at: usize, n: u32, width: usize) -> usize
    requires { width ≤ 8 }
    ensures { Stored text.old at (last_digits 16 width n) text.new result }
{
    let digits = eight(n);
    put(text, at, &digits[8 - width..])
}

// Stores a record's line.
fn put_line(text: &mut [u8], at: usize, r: Record) -> usize
    ensures { Stored text.old at (record_line r) text.new result }
{
    let at = put_hex(text, at, r.number, 8);
    let at = put(text, at, b" ");
    let at = put_hex(text, at, r.value, 8);
    put(text, at, b"\n")
}

// Stores a byte: two digits and a space.
fn put_byte(text: &mut [u8], at: usize, b: u8) -> usize
    ensures { Stored text.old at (last_digits 16 2 b ++ letters " ") text.new result }
{
    let at = put_hex(text, at, u32::from(b), 2);
    put(text, at, b" ")
}

// The lines of a stream's records, as many as the text has room for; answers their bytes.
pub fn put_lines(stream: &[u8], text: &mut [u8]) -> usize
    ensures value { result ≡ 18 * min (length stream.now / 8) (length text.old / 18) }
    ensures prefix_len { IsPrefixLen result text.new }
    ensures text_after { text.new ≡ sets text.old 0 (joined (stream_line stream.now) (min (length stream.now / 8) (length text.old / 18))) }
{
    let n = (stream.len() / 8).min(text.len() / 18);
    for i in 0..n {
        let r = record_code::record_at(stream, i);
        put_line(text, 18 * i, r);
    }
    18 * n
}

// Bytes in hexadecimal, a space behind each, as many as the text has room for; answers the text's bytes.
pub fn put_bytes(bytes: &[u8], text: &mut [u8]) -> usize
    ensures value { result ≡ 3 * min (length bytes.now) (length text.old / 3) }
    ensures prefix_len { IsPrefixLen result text.new }
    ensures text_after { text.new ≡ sets text.old 0 (joined (hex_byte bytes.now) (min (length bytes.now) (length text.old / 3))) }
{
    let n = bytes.len().min(text.len() / 3);
    for i in 0..n {
        put_byte(text, 3 * i, bytes[i]);
    }
    3 * n
}

// The 16-bit numbers of bytes, low byte first, as many as there is room for; answers how many.
pub fn words_of(bytes: &[u8], words: &mut [u16]) -> usize
    ensures value { result ≡ min (length bytes.now / 2) (length words.old) }
    ensures prefix_len { IsPrefixLen result words.new }
    ensures words_after { words.new ≡ sets words.old 0 (joined (word_of bytes.now) (min (length bytes.now / 2) (length words.old))) }
{
    let n = (bytes.len() / 2).min(words.len());
    for i in 0..n {
        words[i] = record_code::u16_at(bytes, 2 * i);
    }
    n
}

// The number of one to nine decimal digits.
pub fn number_of(text: &[u8]) -> Option<u32>
    ensures { result ≡ number_of text.now }
{
    if text.is_empty() || 9 < text.len() {
        return None;
    }
    let mut n = 0;
    for c in text {
        if !c.is_ascii_digit() {
            return None;
        }
        n = 10 * n + u32::from(*c - b'0');
    }
    Some(n)
}
