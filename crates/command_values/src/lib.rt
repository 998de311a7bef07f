// The addresses of a command's rectangle, and its register values.
#![tactic(auto)]

ghost use Rattle.std.specs.Prelude.{◌≡◌, ◌+◌, ◌-◌, ◌*◌, ◌/◌, ◌≤◌, cond};
ghost use Rattle.command.specs.Command.{by_operation, surface_of, address_of, destination_of, source_of};
ghost use Rattle.command.specs.Values.{is_negative, last_column, last_line, command_value, pattern_value, source_value, destination_value, control_value, blit_values};

use command::Command;
use screen::{Image, Screen};

// The image that a command draws on.
#[tactic(auto, unfolding(command::specs::Command::surface_of))]
pub fn surface_of(s: Screen, c: Command) -> Image
    ensures { result ≡ surface_of s c }
{
    if c.surface == 0 {
        return screen_code::main_image(s);
    }
    screen_code::window_image(s)
}

// The address of a pixel of the image that a command draws on.
fn pixel_address(s: Screen, c: Command, x: u32, y: u32) -> u64
    requires { (x ≤ 131070) × (y ≤ 131070) }
    ensures { (result ≡ address_of s.depth (surface_of s c) x y) × (result ≤ 0x4000000000000) }
{
    let on = surface_of(s, c);
    on.base as u64 + y as u64 * on.line as u64 + x as u64 * s.depth as u64 / 8
}

// The addresses of the upper left pixels.
#[tactic(auto, unfolding(command::specs::Command::destination_of))]
pub fn destination_of(s: Screen, c: Command) -> u64
    ensures { (result ≡ destination_of s c) × (result ≤ 0x4000000000000) }
{
    pixel_address(s, c, c.x as u32, c.y as u32)
}

#[tactic(auto, unfolding(command::specs::Command::source_of))]
pub fn source_of(s: Screen, c: Command) -> u64
    ensures { (result ≡ source_of s c) × (result ≤ 0x4000000000000) }
{
    pixel_address(s, c, c.sx as u32, c.sy as u32)
}

// Whether a move goes in negative direction.
fn is_negative(s: Screen, c: Command) -> bool
    ensures { result ≡ is_negative s c }
{
    let source = source_of(s, c);
    let destination = destination_of(s, c);
    (c.operation == 1) & (source < destination)
}

// How far behind the first of so many columns or lines the pixel stands that a command starts at, in negative direction or not.
fn steps_behind(negative: bool, size: u16) -> u32
    ensures { (result ≡ cond negative (size - 1) 0) × (result ≤ 65534) }
{
    if negative {
        return size.saturating_sub(1) as u32;
    }
    0
}

// The chip's operation.
fn operation_value(c: Command, negative: bool) -> u64
    ensures { (result ≡ by_operation c.operation 12 (cond negative 3 2) 0 6 7 5) × (result ≤ 12) }
{
    match c.operation {
        0 => 12,
        1 => { if negative { 3 } else { 2 } }
        2 => 0,
        3 => 6,
        4 => 7,
        _ => 5,
    }
}

// The value of 8008h.
#[tactic(auto, unfolding(command::specs::Values::command_value))]
fn command_value(s: Screen, c: Command, negative: bool) -> u64
    requires { negative ≡ is_negative s c }
    ensures { result ≡ command_value s c }
{
    operation_value(c, negative) + 65536 * c.raster as u64
}

// The address of pixel (x, y) of the pattern at an address.
fn pattern_pixel(pattern: u32, x: u8, y: u8, depth: u8) -> u64
    ensures { result ≡ pattern + (8 * y + x) * depth / 8 }
{
    let pixels = 8 * y as u64 + x as u64;
    pattern as u64 + pixels * depth as u64 / 8
}

// The address of the pattern's pixel that a rectangle starts with.
#[tactic(auto, unfolding(command::specs::Values::pattern_value))]
fn pattern_value(s: Screen, c: Command) -> u64
    ensures { result ≡ pattern_value s c }
{
    pattern_pixel(c.pattern, c.px, c.py, s.depth)
}

// The address of the pixel that a command starts at, of a rectangle whose upper left pixel is (x, y).
#[inline(always)]
#[tactic(auto, unfolding(command::specs::Values::last_column, command::specs::Values::last_line))]
fn start_value(s: Screen, c: Command, negative: bool, x: u16, y: u16) -> u64
    requires { negative ≡ is_negative s c }
    ensures { result ≡ address_of s.depth (surface_of s c) (x + last_column s c) (y + last_line s c) }
{
    let column = x as u32 + steps_behind(negative, c.width);
    let line = y as u32 + steps_behind(negative, c.height);
    pixel_address(s, c, column, line)
}

// The value of 800Ch.
#[tactic(auto, unfolding(command::specs::Values::source_value))]
fn source_value(s: Screen, c: Command, negative: bool) -> u64
    requires { negative ≡ is_negative s c }
    ensures { result ≡ source_value s c }
{
    match c.operation {
        0 | 2 => 0,
        1 => start_value(s, c, negative, c.sx, c.sy),
        3 | 4 => pattern_value(s, c),
        _ => source_of(s, c),
    }
}

// The value of 8010h.
#[tactic(auto, unfolding(command::specs::Values::destination_value))]
fn destination_value(s: Screen, c: Command, negative: bool) -> u64
    requires { negative ≡ is_negative s c }
    ensures { result ≡ destination_value s c }
{
    start_value(s, c, negative, c.x, c.y)
}

// The value of 8020h: only operations 4 and 5 use it.
fn key_value(c: Command) -> u64
    ensures { result ≡ by_operation c.operation 0 0 0 0 c.key c.key }
{
    if c.operation <= 3 {
        return 0;
    }
    c.key as u64
}

// The value of 8024h: only a fill uses it.
fn colour_value(c: Command) -> u64
    ensures { result ≡ by_operation c.operation c.colour 0 0 0 0 0 }
{
    if c.operation == 0 {
        return c.colour as u64;
    }
    0
}

// The value of 8000h.
#[tactic(auto, unfolding(command::specs::Values::control_value))]
fn control_value(depth: u8) -> u64
    ensures { result ≡ control_value depth }
{
    if depth == 16 {
        return 0x40001;
    }
    1
}

// The nine register values of a command, in the stream's order.
pub fn blit_values(s: Screen, c: Command) -> [u64; 9]
    ensures { result ≡ blit_values s c }
{
    let on = surface_of(s, c);
    let negative = is_negative(s, c);
    let command = command_value(s, c, negative);
    let source = source_value(s, c, negative);
    let destination = destination_value(s, c, negative);
    let offset = on.line as u64 / 2;
    let width = c.width.saturating_sub(1) as u64;
    let height = c.height.saturating_sub(1) as u64;
    let key = key_value(c);
    let colour = colour_value(c);
    let control = control_value(s.depth);
    [
        command,
        source,
        destination,
        offset,
        width,
        height,
        key,
        colour,
        control,
    ]
}
