// What the blit registers say, and the data words that are due.
#![tactic(auto)]

ghost use Rattle.std.specs.Prelude.{◌≡◌, ◌-◌, ◌/◌, ◌≤◌, ◌<◌, min};
ghost use Rattle.chip.specs.Start.{operation, raster_code, bytes_of, source_of, destination_of, line_of, width_of, height_of, foreground_of, key_of, pattern_base, pattern_line, pattern_column};
ghost use Rattle.chip.specs.Admit.{due_after};
ghost use Rattle.chip.specs.Words.{line_words, due_in_line, due_in_all, due_after_words, chip_after_words};

use chip::{Chip, Due, Registers};

// The fields, each read by its bits.
pub fn operation_of(b: Registers) -> u32
    ensures { result ≡ operation b }
{
    b.command % 16
}

pub fn raster_code(b: Registers) -> u8
    ensures { result ≡ raster_code b }
{
    (b.command / 65536 % 16) as u8
}

// Bytes of a pixel.
pub fn bytes_of(b: Registers) -> u64
    ensures { result ≡ bytes_of b }
{
    1 + (b.control / 262144 % 2) as u64
}

pub fn source_of(b: Registers) -> u32
    ensures { result ≡ source_of b }
{
    b.source % 262144
}

pub fn destination_of(b: Registers) -> u32
    ensures { result ≡ destination_of b }
{
    b.destination % 262144
}

// Line length in bytes.
pub fn line_of(b: Registers) -> u64
    ensures { result ≡ line_of b }
{
    2 * (b.offset % 2048) as u64
}

pub fn width_of(b: Registers) -> u64
    ensures { result ≡ width_of b }
{
    (b.width % 1024) as u64 + 1
}

pub fn height_of(b: Registers) -> u64
    ensures { result ≡ height_of b }
{
    (b.height % 1024) as u64 + 1
}

pub fn foreground_of(b: Registers) -> u16
    ensures { result ≡ foreground_of b }
{
    (b.foreground % 65536) as u16
}

// The key colour, of as many bits as a pixel has.
pub fn key_of(b: Registers) -> u16
    ensures { result ≡ key_of b }
{
    if bytes_of(b) == 1 {
        return (b.background % 256) as u16;
    }
    (b.background % 65536) as u16
}

// Pixels before the source address.
fn pixels_before(b: Registers) -> u32
    ensures { result ≡ source_of b / bytes_of b }
{
    let source = source_of(b);
    if bytes_of(b) == 1 { source } else { source / 2 }
}

// Where a pattern of 64 pixels begins, and the line and column of its first pixel.
pub fn pattern_base(b: Registers) -> u32
    ensures { result ≡ pattern_base b }
{
    pixels_before(b) / 64 * (64 * bytes_of(b) as u32)
}

pub fn pattern_line(b: Registers) -> u32
    ensures { result ≡ pattern_line b }
{
    pixels_before(b) / 8 % 8
}

pub fn pattern_column(b: Registers) -> u32
    ensures { result ≡ pattern_column b }
{
    pixels_before(b) % 8
}

// Data words of a line.
fn words_of(b: Registers) -> u64
    ensures { (result ≡ line_words b) × (0 < result) × (result ≤ 1024) }
{
    (width_of(b) * bytes_of(b) + 1) / 2
}

// The next word that is due once one has come.
#[tactic(auto, unfolding(chip::specs::Admit::due_after))]
fn due_after(b: Registers, d: Due) -> Due
    ensures { result ≡ due_after b d }
{
    let words = words_of(b);
    let height = height_of(b);
    if d.word as u64 + 1 < words {
        return Due {
            any: true,
            line: d.line,
            word: d.word + 1,
        };
    }
    if d.line as u64 + 1 < height {
        return Due {
            any: true,
            line: d.line + 1,
            word: 0,
        };
    }
    Due::default()
}

// Words of the line before the due one. A word past its line is that line's last.
fn words_before(b: Registers, d: Due) -> u64
    ensures { result ≡ min d.word (line_words b - 1) }
{
    (d.word as u64).min(words_of(b) - 1)
}

// Words that are due of the line.
pub fn line_due(b: Registers, d: Due) -> u64
    ensures { (result ≡ due_in_line b d) × (0 < result) × (result ≤ 1024) }
{
    words_of(b) - words_before(b, d)
}

// Words that are due, of this line and those after it.
pub fn words_due(b: Registers, d: Due) -> u64
    ensures { (result ≡ due_in_all b d) × (result ≤ 1048576) }
{
    let lines = height_of(b).saturating_sub(d.line as u64 + 1);
    lines * words_of(b) + line_due(b, d)
}

// What is due once so many of the due words have come.
fn due_after_words(b: Registers, d: Due, n: u64) -> Due
    requires { (0 < n) × (n ≤ due_in_all b d) }
    ensures { result ≡ due_after_words b n d }
{
    if n == words_due(b, d) {
        return Due::default();
    }
    let words = words_of(b);
    let come = words_before(b, d) + n;
    Due {
        any: true,
        line: d.line + (come / words) as u16,
        word: (come % words) as u16,
    }
}

// The chip after so many of the due words.
pub fn words_after(c: Chip, n: u64) -> Chip
    requires { (0 < n) × (n ≤ due_in_all c.blit c.due) }
    ensures { result ≡ chip_after_words c n }
{
    Chip {
        due: due_after_words(c.blit, c.due, n),
        ..c
    }
}

// What is due after so many words of the due word's line: as after the last of them.
pub fn due_in_line(b: Registers, d: Due, n: u64) -> Due
    requires { (0 < n) × (n ≤ due_in_line b d) }
    ensures { result ≡ due_after_words b n d }
{
    let last = Due {
        any: true,
        line: d.line,
        word: d.word + (n - 1) as u16,
    };
    due_after(b, last)
}

// The chip after so many words of the due word's line.
pub fn line_after(c: Chip, n: u64) -> Chip
    requires { (0 < n) × (n ≤ due_in_line c.blit c.due) }
    ensures { result ≡ chip_after_words c n }
{
    Chip {
        due: due_in_line(c.blit, c.due, n),
        ..c
    }
}
