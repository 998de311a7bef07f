// The chip's walk from its registers to a panel point.
#![tactic(auto)]

ghost use Rattle.std.specs.Prelude.{◌≡◌, true, ◌&&◌, cond, eqb, ◌+◌, ◌*◌, ◌≤◌, ◌<◌, min};
ghost use Rattle.pixel.specs.Depth.{is_depth};
ghost use Rattle.screen.specs.Fields.{values_fit};
ghost use Rattle.view.specs.Walk.{walk, between, in_window_by, corner_p, corner_q, place_of};
ghost use Rattle.view.specs.Steps.{meets_window, window_columns, steps_at, steps_from};

use screen::{Origin, ScreenValues};
use view::{Columns, Place, Steps};

// The chip's walk from an image's registers to point (p, q), k pixels to a dword: so many dwords and pixels along a line of the image,
// after so many lines.
#[tactic(auto, unfolding(view::specs::Walk::walk))]
fn walk_to(rotation: u32, k: u32, at: Origin, p: u32, q: u32) -> Place
    requires { (at.start ≤ 65535) × (at.offset ≤ 1023) }
    ensures { result ≡ walk rotation k at p q }
{
    let start = at.start;
    // (not the opposite of a quarter turn: a rotation above 3 goes as 3)
    let level = (rotation == 0) | (rotation == 2);
    let along = record_code::choose(level, p, q) as u64;
    let lines = record_code::choose(level, q, p) as u64 * at.offset;
    let per = k as u64;
    let dwords = record_code::quotient(along, per);
    let pixel = record_code::remainder(along, per);
    let back = record_code::minus(record_code::minus(per, 1), pixel);
    match rotation {
        0 => Place {
            up: start + lines + dwords,
            down: 0,
            pixel,
        },
        1 => Place {
            up: start + lines,
            down: dwords,
            pixel: back,
        },
        2 => Place {
            up: start,
            down: lines + dwords,
            pixel: back,
        },
        _ => Place {
            up: start + dwords,
            down: lines,
            pixel,
        },
    }
}

// Whether t lies between a position register's start and end.
fn is_between(v: u64, t: u64) -> bool
    ensures { result ≡ between v t }
{
    (v % 1024 <= t) & (t <= v / 65536 % 1024)
}

// Whether the chip takes a point for one of the window's: with flag 1 alone.
#[tactic(auto, unfolding(view::specs::Walk::in_window_by))]
fn in_window(flag: u32, rotation: u32, k: u32, x: u64, y: u64, p: u32, q: u32) -> bool
    ensures { result ≡ (eqb flag 1 && in_window_by rotation k x y p q) }
{
    if flag != 1 {
        return false;
    }
    if screen_code::is_quarter(rotation) {
        is_between(x, p as u64) & is_between(y, record_code::quotient(q as u64, k as u64))
    } else {
        is_between(x, record_code::quotient(p as u64, k as u64)) & is_between(y, q as u64)
    }
}

// The panel column that the window's walk counts from.
#[tactic(auto, unfolding(view::specs::Walk::corner_p))]
fn corner_p(rotation: u32, k: u32, x: u64) -> u64
    ensures { result ≡ corner_p rotation k x }
{
    if screen_code::is_quarter(rotation) {
        x % 1024
    } else {
        x % 1024 * k as u64
    }
}

// The panel line that the window's walk counts from.
#[tactic(auto, unfolding(view::specs::Walk::corner_q))]
fn corner_q(rotation: u32, k: u32, y: u64) -> u64
    ensures { result ≡ corner_q rotation k y }
{
    if screen_code::is_quarter(rotation) {
        y % 1024 * k as u64
    } else {
        y % 1024
    }
}

// Where the chip looks for a panel point, from values that are in their fields.
pub fn place_of(depth: u32, rotation: u32, flag: u32, values: ScreenValues, p: u32, q: u32) -> Place
    requires { values_fit values ≡ true }
    ensures { result ≡ place_of depth rotation flag values p q }
{
    let k = pixel_code::per_dword(depth);
    let main = values.main;
    let window = values.window;
    if in_window(flag, rotation, k, values.x, values.y, p, q) {
        let x = record_code::minus(p as u64, corner_p(rotation, k, values.x));
        let y = record_code::minus(q as u64, corner_q(rotation, k, values.y));
        return walk_to(rotation, k, window, x as u32, y as u32);
    }
    walk_to(rotation, k, main, p, q)
}

// Whether panel line q meets the window's lines.
fn meets_window(rotation: u32, flag: u32, k: u32, y: u64, q: u32) -> bool
    ensures { result ≡ meets_window rotation flag k y q }
{
    let turned = screen_code::is_quarter(rotation);
    let t = record_code::choose(turned, record_code::quotient(q as u64, k as u64), q as u64);
    (flag == 1) & is_between(y, t)
}

// The panel column of an edge that counts so many columns as one, or the panel's width where that is less.
fn column_of(width: u32, edge: u64, per: u32) -> u32
    requires { edge ≤ 1024 }
    ensures { result ≡ min width (edge * per) }
{
    (edge * per as u64).min(width as u64) as u32
}

// The columns of panel line q, of so many, that are the window's.
#[tactic(auto, unfolding(view::specs::Steps::window_columns))]
pub fn window_columns(
    depth: u32,
    rotation: u32,
    flag: u32,
    values: ScreenValues,
    width: u32,
    q: u32,
) -> Columns
    ensures { result ≡ window_columns depth rotation flag values width q }
{
    let k = pixel_code::per_dword(depth);
    if !meets_window(rotation, flag, k, values.y, q) {
        return Columns { from: 0, to: 0 };
    }
    let per = record_code::choose(screen_code::is_quarter(rotation), 1, k);
    let from = column_of(width, values.x % 1024, per);
    let to = column_of(width, values.x / 65536 % 1024 + 1, per);
    Columns {
        from,
        to: from.max(to),
    }
}

// The steps of a walk that has come to a place, along an image with a line offset.
#[tactic(auto, unfolding(view::specs::Steps::steps_at))]
fn steps_at(depth: u32, rotation: u32, w: Place, offset: u64) -> Steps
    requires { (depth ≤ 16) × (offset < 1024) × (w.up ≤ 4398046576640) × (w.down ≤ 4398046576640) × (w.pixel < 32) }
    ensures { result ≡ steps_at depth rotation w offset }
{
    let bits = depth as u64;
    let turned = screen_code::is_quarter(rotation);
    Steps {
        ahead: 32 * w.up + bits * w.pixel,
        behind: 32 * w.down,
        step: record_code::choose(turned, 32 * offset, bits),
        back: 1 < rotation,
    }
}

// The walk from panel point (p, q) on by steps, from values that are in their fields. It does not call place_of: with a second caller LLVM
// no longer puts the point reader in line.
pub fn steps_from(
    depth: u32,
    rotation: u32,
    flag: u32,
    values: ScreenValues,
    p: u32,
    q: u32,
) -> Steps
    requires { (is_depth depth ≡ true) × (rotation < 4) × (values_fit values ≡ true) }
    ensures { result ≡ steps_from depth rotation flag values p q }
{
    let k = pixel_code::per_dword(depth);
    let main = values.main;
    let window = values.window;
    if in_window(flag, rotation, k, values.x, values.y, p, q) {
        let x = record_code::minus(p as u64, corner_p(rotation, k, values.x));
        let y = record_code::minus(q as u64, corner_q(rotation, k, values.y));
        let w = walk_to(rotation, k, window, x as u32, y as u32);
        return steps_at(depth, rotation, w, window.offset);
    }
    let w = walk_to(rotation, k, main, p, q);
    steps_at(depth, rotation, w, main.offset)
}
