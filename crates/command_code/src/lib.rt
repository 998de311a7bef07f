// The command record, and its refusals.
#![tactic(auto)]

ghost use Rattle.std.specs.Prelude.{◌≡◌, ◌≤◌, true, length, drop, replicate};
ghost use Rattle.record.specs.Bytes.{all_zero, over};
ghost use Rattle.record.specs.Checks.{first_of};
ghost use Rattle.screen.specs.Screen.{memory_size};
ghost use Rattle.command.specs.Command.{command_of, by_operation, last_operation, must_be_zero, zeros_from, pattern_fits, formed, inside_image, placed, line_words, words_taken, command_rows, names_command, refusal, command_answer};
ghost use Rattle.command.specs.Task.{is_form, is_list};
ghost use Rattle.refusal.specs.Number.{number, number_of};

use command::Command;
use refusal::{Numbered, Refusal};
use screen::{Image, MEMORY_SIZE, Screen};

// Refusal 10: whether a list has whole records, at most 64, in a form that there is.
pub fn is_list(form: u32, list: &[u8]) -> bool
    ensures { result ≡ is_list form list.now }
{
    let n = list.len() as u64;
    let size = form as u64;
    let over = record_code::remainder(n, size);
    ((form == 32) | (form == 48)) & ((over == 0) & (n <= 64 * size))
}

// The record in the long form: a short one with zeros behind it. Each copy is of a known length, since one that is known only when it runs is a call.
fn in_long_form(b: &[u8]) -> [u8; 48]
    requires { is_form (length b.now) ≡ true }
    ensures { result ≡ over b.now (replicate 48 0) }
{
    let mut whole = [0; 48];
    if b.len() < 48 {
        whole[..32].copy_from_slice(&b[..32]);
    } else {
        whole.copy_from_slice(&b[..48]);
    }
    whole
}

// The record's fields.
pub fn command_of(b: &[u8]) -> Command
    requires { is_form (length b.now) ≡ true }
    ensures { result ≡ command_of b.now }
{
    let whole = in_long_form(b);
    Command {
        operation: whole[0],
        surface: whole[1],
        raster: whole[2],
        x: record_code::u16_at(&whole, 4),
        y: record_code::u16_at(&whole, 6),
        width: record_code::u16_at(&whole, 8),
        height: record_code::u16_at(&whole, 10),
        sx: record_code::u16_at(&whole, 12),
        sy: record_code::u16_at(&whole, 14),
        colour: record_code::u16_at(&whole, 16),
        key: record_code::u16_at(&whole, 32),
        px: whole[34],
        py: whole[35],
        pattern: record_code::u32_at(&whole, 36),
    }
}

// The last operation that a record has.
fn last_operation(b: &[u8]) -> u8
    ensures { result ≡ last_operation b.now }
{
    if b.len() < 48 {
        return 2;
    }
    5
}

// Whether the fields that the operation does not use are zero.
#[tactic(auto, unfolding(command::specs::Command::must_be_zero, record::specs::Bytes::all_zero))]
fn is_unused_zero(c: Command) -> bool
    ensures { result ≡ all_zero (must_be_zero c) }
{
    match c.operation {
        0 => (c.raster == 0) & ((c.sx == 0) & (c.sy == 0)),
        1 => c.colour == 0,
        2 => (c.sx == 0) & ((c.sy == 0) & (c.colour == 0)),
        3 => (c.sx == 0) & ((c.sy == 0) & ((c.colour == 0) & (c.key == 0))),
        4 => (c.raster == 0) & ((c.sx == 0) & ((c.sy == 0) & (c.colour == 0))),
        _ => {
            (c.raster == 0) & ((c.colour == 0) & ((c.px == 0) & ((c.py == 0) & (c.pattern == 0))))
        }
    }
}

// Whether a long record's last bytes are zero, from byte 32 on or behind the pattern's fields; a short record has none of them. They are taken
// four at a time.
fn is_past_zero(operation: u8, b: &[u8]) -> bool
    requires { is_form (length b.now) ≡ true }
    ensures { result ≡ all_zero (drop (zeros_from operation) b.now) }
{
    if b.len() < 48 {
        return true;
    }
    let last = (record_code::u32_at(b, 40) == 0) & (record_code::u32_at(b, 44) == 0);
    if operation <= 2 {
        return (record_code::u32_at(b, 32) == 0) & ((record_code::u32_at(b, 36) == 0) & last);
    }
    last
}

// Whether a pattern and its first pixel are where they can be.
fn is_pattern(s: Screen, c: Command) -> bool
    ensures { result ≡ pattern_fits memory_size s c }
{
    let size = 8 * s.depth as u64;
    let at = c.pattern as u64;
    let over = record_code::remainder(at, size);
    (c.px <= 7) & ((c.py <= 7) & ((over == 0) & (at + size <= MEMORY_SIZE)))
}

// The same of operations 3 and 4, which have a pattern.
fn is_pattern_formed(s: Screen, c: Command) -> bool
    ensures { result ≡ by_operation c.operation true true true (pattern_fits memory_size s c) (pattern_fits memory_size s c) true }
{
    match c.operation {
        3 | 4 => is_pattern(s, c),
        _ => true,
    }
}

// Refusal 12: whether the command is one, and zero where it must be.
fn is_formed(s: Screen, b: &[u8], c: Command) -> bool
    requires { is_form (length b.now) ≡ true }
    ensures { result ≡ formed memory_size s b.now c }
{
    let last = last_operation(b);
    let rest = record_code::all_zero(&b[18..32]);
    let past = is_past_zero(c.operation, b);
    let pattern = is_pattern_formed(s, c);
    let colours = (s.depth != 8) | ((c.colour <= 255) & (c.key <= 255));
    let zero = is_unused_zero(c) & ((b[3] == 0) & (rest & (past & pattern)));
    (c.operation <= last) & ((c.surface <= s.flag) & ((c.raster <= 15) & (colours & zero)))
}

// Whether a rectangle lies in an image.
#[tactic(auto, unfolding(command::specs::Command::inside_image))]
fn is_inside(i: Image, x: u16, y: u16, width: u16, height: u16) -> bool
    ensures { result ≡ inside_image i x y width height }
{
    let right = x as u32 + width as u32;
    let bottom = y as u32 + height as u32;
    (right <= i.width as u32) & (bottom <= i.height as u32)
}

// Refusal 14: whether the destination, and a move's source, lies in the surface.
fn is_placed(s: Screen, c: Command) -> bool
    ensures { result ≡ placed s c }
{
    let on = command_values::surface_of(s, c);
    let destination = is_inside(on, c.x, c.y, c.width, c.height);
    let source = is_inside(on, c.sx, c.sy, c.width, c.height);
    let moves = (c.operation == 1) | (4 < c.operation);
    destination & (!moves | source)
}

// The host words of a line.
#[tactic(auto, unfolding(command::specs::Command::line_words))]
fn line_words(depth: u8, width: u16) -> u32
    ensures { (result ≡ line_words depth width) × (result ≤ 65535) }
{
    if depth == 8 {
        return (width as u32 + 1) / 2;
    }
    width as u32
}

// The host words that a command takes.
pub fn words_taken(s: Screen, c: Command) -> u32
    ensures { result ≡ words_taken s c }
{
    if c.operation != 2 {
        return 0;
    }
    line_words(s.depth, c.width) * c.height as u32
}

// Whether a refusal names the command that is refused.
pub fn names_command<E: Numbered>(why: E) -> bool
    ensures { result ≡ names_command (E.number_in why) }
{
    matches!(why.as_number(), 12..=15 | 29)
}

// The first of 12 to 15 and 29 that holds, with so many host words left.
fn check_command(s: Screen, left: u64, b: &[u8], c: Command) -> Result<(), Refusal>
    requires { is_form (length b.now) ≡ true }
    ensures { number_of result ≡ first_of (command_rows memory_size s left b.now c) }
{
    let words = words_taken(s, c) as u64;
    record_code::first_of(&[
        (Refusal::CommandForm, !is_formed(s, b, c)),
        (Refusal::EmptyRectangle, (c.width == 0) | (c.height == 0)),
        (Refusal::Outside, !is_placed(s, c)),
        (Refusal::Shared, command_share::is_clash(s, c)),
        (Refusal::FewWords, left < words),
    ])
}

// The command of a part of the list, a record in one of its forms, or the first refusal of 12 to 15 and 29.
pub fn read_command(s: Screen, left: u64, b: &[u8]) -> Result<Command, Refusal>
    requires { is_form (length b.now) ≡ true }
    ensures value { result ≡ command_answer memory_size s left b.now }
    ensures result_value { number_of result ≡ refusal memory_size s left b.now }
{
    let c = command_of(b);
    check_command(s, left, b, c)?;
    Ok(c)
}
