// The screen record: its images, and the checks on it.
#![tactic(auto)]

ghost use Rattle.std.specs.Prelude.{◌≡◌, length};
ghost use Rattle.record.specs.Checks.{first_of};
ghost use Rattle.screen.specs.Image.{line_bytes, line_pixels, image_end};
ghost use Rattle.screen.specs.Screen.{fields_of, well_formed, panel_ok, quarter, view_width, view_height, whole_dwords, main_image, window_image, line_ok, image_ok, window_ok, window_whole, field_rows, screen_rows, screen_of, memory_size};
ghost use Rattle.refusal.specs.Number.{number_of};

use refusal::Refusal;
use screen::{Image, MEMORY_SIZE, Screen, Window};

// The record's fields.
#[tactic(auto, unfolding(screen::specs::Screen::fields_of))]
fn fields(b: &[u8]) -> Screen
    requires { length b.now ≡ 32 }
    ensures { result ≡ fields_of b.now }
{
    let window = Window {
        base: record_code::u32_at(b, 12),
        x: record_code::u16_at(b, 16),
        y: record_code::u16_at(b, 18),
        width: record_code::u16_at(b, 20),
        height: record_code::u16_at(b, 22),
        line: record_code::u16_at(b, 26),
    };
    Screen {
        depth: b[0],
        rotation: b[1],
        flag: b[2],
        width: record_code::u16_at(b, 4),
        height: record_code::u16_at(b, 6),
        base: record_code::u32_at(b, 8),
        line: record_code::u16_at(b, 24),
        window,
    }
}

// Refusal 1: whether the record has its length, a flag of 0 or 1, and zero where it must be.
#[tactic(auto, unfolding(screen::specs::Screen::well_formed))]
fn is_well_formed(b: &[u8]) -> bool
    ensures { result ≡ well_formed b.now }
{
    if b.len() != 32 {
        return false;
    }
    let rest = record_code::all_zero(&b[28..32]);
    let window = record_code::all_zero(&b[12..24]);
    let line = record_code::all_zero(&b[26..28]);
    (b[2] <= 1) & ((b[3] == 0) & (rest & ((b[2] != 0) | (window & line))))
}

// Refusal 4.
#[tactic(auto, unfolding(screen::specs::Screen::panel_ok))]
pub fn is_panel(width: u32, height: u32) -> bool
    ensures { result ≡ panel_ok width height }
{
    (width % 8 == 0) & (8..=1024).contains(&width) & (1..=1024).contains(&height)
}

// Whether the view is turned by 90 or 270 degrees.
pub fn is_quarter(rotation: u32) -> bool
    ensures { result ≡ quarter rotation }
{
    matches!(rotation, 1 | 3)
}

#[tactic(auto, unfolding(screen::specs::Screen::view_width))]
pub fn view_width(rotation: u32, width: u32, height: u32) -> u32
    ensures { result ≡ view_width rotation width height }
{
    if is_quarter(rotation) { height } else { width }
}

#[tactic(auto, unfolding(screen::specs::Screen::view_height))]
pub fn view_height(rotation: u32, width: u32, height: u32) -> u32
    ensures { result ≡ view_height rotation width height }
{
    if is_quarter(rotation) { width } else { height }
}

// Whether n is a multiple of 32 ÷ depth.
#[tactic(auto, unfolding(screen::specs::Screen::whole_dwords))]
pub fn is_whole(depth: u32, n: u32) -> bool
    ensures { result ≡ whole_dwords depth n }
{
    let k = pixel_code::per_dword(depth);
    record_code::remainder(n as u64, k as u64) == 0
}

// The bytes of n pixels.
pub fn line_bytes(depth: u8, n: u16) -> u32
    ensures { result ≡ line_bytes depth n }
{
    (n as u32) * (depth as u32) / 8
}

// The line length in pixels of an image that shows so many: as given, or, for 0, as shown.
fn line_pixels(given: u16, width: u16) -> u16
    ensures { result ≡ line_pixels given width }
{
    if given == 0 { width } else { given }
}

// Refusal 26: whether a line length that is given has room for what is shown, is whole dwords, and not over 1,023 of them.
#[tactic(auto, unfolding(screen::specs::Screen::line_ok))]
fn is_line(depth: u8, given: u16, width: u16) -> bool
    ensures { result ≡ line_ok depth given width }
{
    if given == 0 {
        return true;
    }
    let whole = is_whole(depth as u32, given as u32);
    (width <= given) & (whole & (line_bytes(depth, given) <= 4 * 1023))
}

// The main image.
#[tactic(auto, unfolding(screen::specs::Screen::main_image))]
pub fn main_image(s: Screen) -> Image
    ensures { result ≡ main_image s }
{
    let width = view_width(s.rotation as u32, s.width as u32, s.height as u32) as u16;
    let height = view_height(s.rotation as u32, s.width as u32, s.height as u32) as u16;
    let line = line_bytes(s.depth, line_pixels(s.line, width));
    Image {
        base: s.base,
        line,
        width,
        height,
    }
}

// The window's image.
#[tactic(auto, unfolding(screen::specs::Screen::window_image))]
pub fn window_image(s: Screen) -> Image
    ensures { result ≡ window_image s }
{
    let w = s.window;
    let line = line_bytes(s.depth, line_pixels(w.line, w.width));
    Image {
        base: w.base,
        line,
        width: w.width,
        height: w.height,
    }
}

// One past the byte of the image's last shown pixel.
#[tactic(auto, unfolding(screen::specs::Image::image_end))]
fn image_end(depth: u8, i: Image) -> u64
    ensures { result ≡ image_end depth i }
{
    let lines = record_code::minus(i.height as u64, 1);
    i.base as u64 + lines * (i.line as u64) + line_bytes(depth, i.width) as u64
}

// Refusals 6 and 9: whether the image lies in the memory, on a dword.
#[tactic(auto, unfolding(screen::specs::Screen::image_ok))]
fn is_image(memory: u64, depth: u8, i: Image) -> bool
    ensures { result ≡ image_ok memory depth i }
{
    (i.base % 4 == 0) & (image_end(depth, i) <= memory)
}

// Refusal 7: whether the window has pixels, and lies in the view.
#[tactic(auto, unfolding(screen::specs::Screen::window_ok))]
fn is_window(s: Screen) -> bool
    ensures { result ≡ window_ok s }
{
    let w = s.window;
    let view = main_image(s);
    let right = w.x as u32 + w.width as u32;
    let bottom = w.y as u32 + w.height as u32;
    (1 <= w.width)
        & ((1 <= w.height) & ((right <= view.width as u32) & (bottom <= view.height as u32)))
}

// Refusal 8: whether window x and width are whole dwords.
#[tactic(auto, unfolding(screen::specs::Screen::window_whole))]
fn is_window_whole(s: Screen) -> bool
    ensures { result ≡ window_whole s }
{
    let w = s.window;
    is_whole(s.depth as u32, w.x as u32) & is_whole(s.depth as u32, w.width as u32)
}

// The first refusal that a screen's fields give in a memory of so many bytes.
fn check_fields(memory: u64, s: Screen) -> Result<(), Refusal>
    ensures { number_of result ≡ first_of (field_rows memory s) }
{
    let main = main_image(s);
    let window = window_image(s);
    let w = s.window;
    let windowed = s.flag == 1;
    record_code::first_of(&[
        (Refusal::Depth, !pixel_code::is_depth(s.depth as u32)),
        (Refusal::Rotation, 3 < s.rotation),
        (Refusal::Panel, !is_panel(s.width as u32, s.height as u32)),
        (
            Refusal::ViewWidth,
            !is_whole(s.depth as u32, main.width as u32),
        ),
        (Refusal::LineLength, !is_line(s.depth, s.line, main.width)),
        (Refusal::MainImage, !is_image(memory, s.depth, main)),
        (Refusal::WindowPlace, windowed & !is_window(s)),
        (Refusal::WindowDwords, windowed & !is_window_whole(s)),
        (
            Refusal::LineLength,
            windowed & !is_line(s.depth, w.line, w.width),
        ),
        (
            Refusal::WindowImage,
            windowed & !is_image(memory, s.depth, window),
        ),
    ])
}

// The screen that a record says in a memory of so many bytes, or the first refusal of 1 to 9 and 26.
pub fn read_screen_in(memory: u64, bytes: &[u8]) -> Result<Screen, Refusal>
    ensures value { result ≡ screen_of memory bytes.now }
    ensures result_value { number_of result ≡ first_of (screen_rows memory bytes.now) }
{
    if !is_well_formed(bytes) {
        return Err(Refusal::ScreenRecord);
    }
    let s = fields(bytes);
    check_fields(memory, s)?;
    Ok(s)
}

// The same in the S1D13A05's memory, as the unit's users call it.
pub fn read_screen(bytes: &[u8]) -> Result<Screen, Refusal>
    ensures value { result ≡ screen_of memory_size bytes.now }
    ensures result_value { number_of result ≡ first_of (screen_rows memory_size bytes.now) }
{
    read_screen_in(MEMORY_SIZE, bytes)
}
