// The six screen register values of a screen.
#![tactic(auto)]

ghost use Rattle.std.specs.Prelude.{◌≡◌, ◌+◌, ◌-◌, ◌/◌, ◌<◌};
ghost use Rattle.screen.specs.Image.{start_of};
ghost use Rattle.screen.specs.Values.{window_x, window_y, origin_of, values_of, edges, six_values, values_with};
ghost use Rattle.screen.specs.Narrow.{Narrow};

use screen::{Image, Origin, Screen, ScreenValues, Window};

// The start register of an image.
#[tactic(auto, unfolding(screen::specs::Image::start_of))]
fn start_of(rotation: u8, depth: u8, i: Image) -> u64
    ensures { result ≡ start_of rotation depth i }
{
    let base = i.base as u64;
    let shown = (i.width as u64) * (depth as u64) / 8;
    let last = record_code::minus(i.height as u64, 1) * (i.line as u64);
    match rotation {
        0 => base / 4,
        1 => record_code::minus((base + shown) / 4, 1),
        2 => record_code::minus((base + last + shown) / 4, 1),
        _ => (base + last) / 4,
    }
}

// Start and line offset of an image.
#[tactic(auto, unfolding(screen::specs::Values::origin_of))]
fn origin_of(rotation: u8, depth: u8, i: Image) -> Origin
    ensures { result ≡ origin_of rotation depth i }
{
    Origin {
        start: start_of(rotation, depth, i),
        offset: i.line as u64 / 4,
    }
}

// A position register.
fn edges_of(start: u64, end: u64) -> u64
    requires { (start < 4294967296) × (end < 4294967296) }
    ensures { result ≡ edges start end }
{
    start + 65536 * end
}

// The edges of a side from a point to another, in units of so many points.
fn edges_in(unit: u32, first: u64, last: u64) -> u64
    requires { (first < 4294967296) × (last < 4294967296) }
    ensures { result ≡ edges (first / unit) (last / unit) }
{
    edges_of(
        record_code::quotient(first, unit as u64),
        record_code::quotient(last, unit as u64),
    )
}

// The edges of a side that runs with the panel, in units of so many points.
fn edges_along(unit: u32, at: u16, size: u16) -> u64
    ensures { result ≡ edges (at / unit) ((at + size - 1) / unit) }
{
    let first = at as u64;
    let last = record_code::minus(first + size as u64, 1);
    edges_in(unit, first, last)
}

// The edges of a side that runs against a panel of so many points.
fn edges_against(unit: u32, panel: u16, at: u16, size: u16) -> u64
    ensures { result ≡ edges ((panel - at - size) / unit) ((panel - at - 1) / unit) }
{
    let behind = record_code::minus(panel as u64, at as u64);
    let first = record_code::minus(behind, size as u64);
    let last = record_code::minus(behind, 1);
    edges_in(unit, first, last)
}

// The Y edges at 90 degrees, where 01 takes the end from the dwords behind x.
fn edges_at_90(unit: u32, panel: u16, at: u16, size: u16) -> u64
    ensures { result ≡ edges ((panel - at - size) / unit) ((panel - at) / unit - 1) }
{
    let behind = record_code::minus(panel as u64, at as u64);
    let first = record_code::minus(behind, size as u64);
    let end = record_code::quotient(behind, unit as u64);
    edges_of(
        record_code::quotient(first, unit as u64),
        record_code::minus(end, 1),
    )
}

// The X position register of a window on a panel of a width, k pixels to a dword.
#[tactic(auto, unfolding(screen::specs::Values::window_x))]
fn window_x(rotation: u8, k: u32, panel: u16, w: Window) -> u64
    ensures { result ≡ window_x rotation k panel w }
{
    match rotation {
        0 => edges_along(k, w.x, w.width),
        1 => edges_along(1, w.y, w.height),
        2 => edges_against(k, panel, w.x, w.width),
        _ => edges_against(1, panel, w.y, w.height),
    }
}

// The Y position register of a window on a panel of a height, k pixels to a dword.
#[tactic(auto, unfolding(screen::specs::Values::window_y))]
fn window_y(rotation: u8, k: u32, panel: u16, w: Window) -> u64
    ensures { result ≡ window_y rotation k panel w }
{
    match rotation {
        0 => edges_along(1, w.y, w.height),
        1 => edges_at_90(k, panel, w.x, w.width),
        2 => edges_against(1, panel, w.y, w.height),
        _ => edges_along(k, w.x, w.width),
    }
}

// The six screen register values of a screen.
#[tactic(auto, unfolding(screen::specs::Values::values_of))]
pub fn screen_values(s: Screen) -> ScreenValues
    ensures { result ≡ values_of s }
{
    let main = origin_of(s.rotation, s.depth, screen_code::main_image(s));
    if s.flag == 0 {
        let window = Origin {
            start: 0,
            offset: 0,
        };
        return ScreenValues {
            main,
            window,
            x: 0,
            y: 0,
        };
    }
    let k = pixel_code::per_dword(s.depth as u32);
    let w = s.window;
    let window = origin_of(s.rotation, s.depth, screen_code::window_image(s));
    let x = window_x(s.rotation, k, s.width, w);
    let y = window_y(s.rotation, k, s.height, w);
    ScreenValues { main, window, x, y }
}

// The six values in the stream's order.
pub fn six_values(v: ScreenValues) -> [u32; 6]
    requires { Narrow v }
    ensures { result ≡ six_values v }
{
    let main = v.main;
    let window = v.window;
    [
        main.start as u32,
        main.offset as u32,
        window.start as u32,
        window.offset as u32,
        v.x as u32,
        v.y as u32,
    ]
}

// The screen values from six numbers in that order.
pub fn values_given(six: [u32; 6]) -> ScreenValues
    ensures { result ≡ values_with six }
{
    ScreenValues {
        main: Origin {
            start: six[0] as u64,
            offset: six[1] as u64,
        },
        window: Origin {
            start: six[2] as u64,
            offset: six[3] as u64,
        },
        x: six[4] as u64,
        y: six[5] as u64,
    }
}
