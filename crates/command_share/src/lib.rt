// Whether a command's lines share a byte with its pattern or its source, told by one of the lines.
#![tactic(auto)]

ghost use Rattle.std.specs.Prelude.{◌≡◌, ◌≤◌, ◌&&◌, ltb};
ghost use Rattle.command.specs.Command.{destination_of, source_of, rectangle_at, pattern_at, clashes};
ghost use Rattle.command.specs.Sharing.{meet, share_byte};
ghost use Rattle.command_share.specs.Run.{lines_meet, first_past};

use command::Command;
use screen::Screen;

// Whether n bytes from address a on and k bytes from address b on have one in common.
fn is_met(a: u64, n: u32, b: u64, k: u32) -> bool
    requires { (a ≤ 0x8000000000000) × (b ≤ 0x8000000000000) }
    ensures { result ≡ meet a n b k }
{
    let ahead = a < b + k as u64;
    let behind = b < a + n as u64;
    (ahead & behind) & ((0 < n) & (0 < k))
}

// The number of the first line that ends past address a.
fn first_past(at: u64, line: u32, size: u32, a: u64) -> u64
    requires { (at ≤ 0x4000000000000) × (a ≤ 0x4000000000000) }
    ensures { result ≡ first_past at line size a }
{
    let end = at + size as u64;
    if a < end {
        return 0;
    }
    record_code::quotient(a - end, line as u64) + 1
}

// Whether one of the lines shares a byte with n bytes from address a on.
fn lines_meet(at: u64, line: u32, size: u32, count: u16, a: u64, n: u32) -> bool
    requires { (at ≤ 0x4000000000000) × (a ≤ 0x4000000000000) }
    ensures { result ≡ lines_meet at line size count a n }
{
    let j = first_past(at, line, size, a);
    if count as u64 <= j {
        return false;
    }
    let from = at + j * line as u64;
    is_met(from, size, a, n)
}

// Whether a pattern shares a byte with the destination.
fn is_pattern_shared(s: Screen, c: Command) -> bool
    ensures { result ≡ share_byte (rectangle_at s c (destination_of s c)) (pattern_at s c) }
{
    let on = command_values::surface_of(s, c);
    let destination = command_values::destination_of(s, c);
    let size = screen_code::line_bytes(s.depth, c.width);
    let pattern = c.pattern as u64;
    let bytes = 8 * s.depth as u32;
    lines_meet(destination, on.line, size, c.height, pattern, bytes)
}

// Whether a transparent move's source shares a byte with a destination of a greater address.
fn is_source_shared(s: Screen, c: Command) -> bool
    ensures { result ≡ (ltb (source_of s c) (destination_of s c) && share_byte (rectangle_at s c (source_of s c)) (rectangle_at s c (destination_of s c))) }
{
    let source = command_values::source_of(s, c);
    let destination = command_values::destination_of(s, c);
    if destination <= source {
        return false;
    }
    let on = command_values::surface_of(s, c);
    let size = screen_code::line_bytes(s.depth, c.width);
    lines_meet(source, on.line, size, c.height, destination, size)
}

// Refusal 29: whether the destination shares a byte with the pattern, or with a transparent move's source at a lower address.
#[tactic(auto, unfolding(command::specs::Command::clashes))]
pub fn is_clash(s: Screen, c: Command) -> bool
    ensures { result ≡ clashes s c }
{
    if c.operation <= 2 {
        return false;
    }
    if c.operation <= 4 {
        return is_pattern_shared(s, c);
    }
    is_source_shared(s, c)
}
