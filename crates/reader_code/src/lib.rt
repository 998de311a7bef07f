// The point reader: what a panel point shows, and where that stands in memory.
#![tactic(auto)]

ghost use Rattle.std.specs.Prelude.{◌≡◌, true, length, take};
ghost use Rattle.record.specs.Checks.{first_of};
ghost use Rattle.refusal.specs.Number.{number_of};
ghost use Rattle.screen.specs.Screen.{memory_size};
ghost use Rattle.screen.specs.Fields.{values_fit};
ghost use Rattle.reader.specs.Read.{display_of, read_rows, reading, reading_of, answer_of};
ghost use Rattle.reader.specs.Looking.{looking, seen, Seeable};

use reader::{Display, Point, Spot};
use refusal::Refusal;
use screen::{MEMORY_SIZE, Screen, ScreenValues};

// Refusal 21: whether each of the six values is in its field.
#[tactic(auto, unfolding(screen::specs::Fields::values_fit))]
fn values_fit(v: ScreenValues) -> bool
    ensures { result ≡ values_fit v }
{
    let main = v.main;
    let window = v.window;
    let x = (v.x % 65536 <= 1023) & (v.x / 65536 <= 1023);
    let y = (v.y % 65536 <= 1023) & (v.y / 65536 <= 1023);
    let at_main = (main.start <= 65535) & (main.offset <= 1023);
    let at_window = (window.start <= 65535) & (window.offset <= 1023);
    at_main & (at_window & (x & y))
}

// What a screen sets the panel to.
#[tactic(auto, unfolding(reader::specs::Read::display_of))]
pub fn display_of(s: Screen) -> Display
    ensures { result ≡ display_of s }
{
    Display {
        depth: s.depth as u32,
        rotation: s.rotation as u32,
        flag: s.flag as u32,
        width: s.width as u32,
        height: s.height as u32,
    }
}

// The first refusal of what the reader is given; 25, on where the chip looks, comes after these.
fn check_given(
    size: u64,
    d: Display,
    values: ScreenValues,
    p: u32,
    q: u32,
    lent: u64,
) -> Result<(), Refusal>
    ensures { number_of result ≡ first_of (take 8 (read_rows size d values p q lent)) }
{
    let view_width = screen_code::view_width(d.rotation, d.width, d.height);
    record_code::first_of(&[
        (Refusal::MemoryLength, lent != size),
        (Refusal::ScreenRecord, 1 < d.flag),
        (Refusal::Depth, !pixel_code::is_depth(d.depth)),
        (Refusal::Rotation, 3 < d.rotation),
        (Refusal::Panel, !screen_code::is_panel(d.width, d.height)),
        (
            Refusal::ViewWidth,
            !screen_code::is_whole(d.depth, view_width),
        ),
        (Refusal::Value, !values_fit(values)),
        (Refusal::Point, !((p < d.width) & (q < d.height))),
    ])
}

// Where the reader looks for panel point (p, q) in a memory of so many bytes, of which so many are lent; or the first refusal.
pub fn look_for(
    size: u64,
    d: Display,
    values: ScreenValues,
    p: u32,
    q: u32,
    lent: u64,
) -> Result<Spot, Refusal>
    ensures { result ≡ looking size d values p q lent }
{
    check_given(size, d, values, p, q, lent)?;
    let w = view_code::place_of(d.depth, d.rotation, d.flag, values, p, q);
    let dword = record_code::minus(w.up, w.down);
    if !((w.down <= w.up) & (dword < size / 4)) {
        return Err(Refusal::Address);
    }
    let i = w.pixel as u32;
    Ok(Spot {
        address: pixel_code::pixel_byte(d.depth, dword, i),
        bit: pixel_code::pixel_bit(d.depth, i),
    })
}

// What the memory shows there; a refusal, by name or by number, is handed on.
pub fn see<E>(depth: u32, memory: &[u8], at: Result<Spot, E>) -> Result<Point, E>
    requires { Seeable depth memory.now at }
    ensures { result ≡ seen depth memory.now at }
{
    let spot = at?;
    Ok(Point {
        colour: pixel_code::stored_pixel(depth, memory, spot.address as usize, spot.bit),
        address: spot.address,
        bit: spot.bit,
    })
}

// What panel point (p, q) shows in a memory of so many bytes, its colour read where the answer says that it stands; or the first refusal.
pub fn read_point_in(
    size: u64,
    d: Display,
    values: ScreenValues,
    p: u32,
    q: u32,
    memory: &[u8],
) -> Result<Point, Refusal>
    ensures result_value { reading_of result ≡ reading size d values p q memory.now }
    ensures value { result ≡ answer_of (reading size d values p q memory.now) }
{
    let at = look_for(size, d, values, p, q, memory.len() as u64);
    see(d.depth, memory, at)
}

// The same in the S1D13A05's memory, as the unit's users call it.
pub fn read_point(
    d: Display,
    values: ScreenValues,
    p: u32,
    q: u32,
    memory: &[u8],
) -> Result<Point, Refusal>
    ensures result_value { reading_of result ≡ reading memory_size d values p q memory.now }
    ensures value { result ≡ answer_of (reading memory_size d values p q memory.now) }
{
    read_point_in(MEMORY_SIZE, d, values, p, q, memory)
}
