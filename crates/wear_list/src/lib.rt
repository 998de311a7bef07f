// The commands of the strip, and the list that holds them.
#![tactic(auto)]

ghost use Rattle.std.specs.Prelude.{◌≡◌, true, cond, ◌++◌, ◌+◌, ◌*◌, ◌≤◌, ◌<◌, length, eqb};
ghost use Rattle.std.proofs.lemmas.List.Edits.{sets};
ghost use Rattle.record.specs.Bytes.{four_bytes};
ghost use Rattle.command.specs.Command.{command_bytes};
ghost use Rattle.wear.specs.Strip.{fill_at, glyph_at, column, columns, writes, list_bytes, all_in_reach};
ghost use Rattle.wear.specs.Limits.{Checked, Drawable, command_count};

use command::Command;
use wear::Ask;

// Stores four numbers, of four bytes each.
fn put_four(list: &mut [u8], at: usize, a: u64, b: u64, c: u64, d: u64)
    requires { at + 16 ≤ length list.old }
    ensures { list.new ≡ sets list.old at (four_bytes a ++ (four_bytes b ++ (four_bytes c ++ four_bytes d))) }
{
    record_code::put_number(list, at, a);
    record_code::put_number(list, at + 4, b);
    record_code::put_number(list, at + 8, c);
    record_code::put_number(list, at + 12, d);
}

// Two numbers of two bytes as one of four.
fn pair(low: u16, high: u16) -> u64
    ensures { result ≡ low + 65536 * high }
{
    low as u64 + 65536 * high as u64
}

// The first four bytes of a command as one number.
fn head(operation: u8, surface: u8, raster: u8) -> u64
    ensures { result ≡ operation + 256 * surface + 65536 * raster }
{
    operation as u64 + 256 * surface as u64 + 65536 * raster as u64
}

// Stores the 32 bytes of a command.
fn put_command(list: &mut [u8], at: usize, c: Command)
    requires { at + 32 ≤ length list.old }
    ensures { list.new ≡ sets list.old at (command_bytes c) }
{
    let first = head(c.operation, c.surface, c.raster);
    let corner = pair(c.x, c.y);
    let size = pair(c.width, c.height);
    let source = pair(c.sx, c.sy);
    put_four(list, at, first, corner, size, source);
    put_four(list, at + 16, c.colour as u64, 0, 0, 0);
}

// Whether no x or y of a column's commands is past 65,535.
fn column_reach(a: Ask, c: u32, height: u32) -> bool
    requires checked { Checked a }
    requires c_bound { (c < 24) × (height ≤ 100) }
    ensures { result ≡ all_in_reach (column a c height) }
{
    let left = a.x as u32 + c * a.column;
    (left <= 65535) & ((height == 0) | (a.y as u32 + 100 - height <= 65535))
}

// Whether no x or y of the columns' commands is past 65,535.
pub fn columns_reach(a: Ask, heights: &[u32]) -> bool
    requires checked { Checked a }
    requires drawable { Drawable heights.now }
    ensures { result ≡ all_in_reach (columns a 0 heights.now) }
{
    for (c, height) in heights.iter().enumerate() {
        if !column_reach(a, c as u32, *height) {
            return false;
        }
    }
    true
}

// Whether no x or y of the number's commands is past 65,535.
pub fn writes_reach(a: Ask, digits: &[u8]) -> bool
    requires { length digits.now ≤ 5 }
    ensures { result ≡ all_in_reach (writes a 0 digits.now) }
{
    let n = digits.len();
    if n == 0 {
        return true;
    }
    let last = a.x as u32 + (n as u32 - 1) * 8;
    (last <= 65535) & (a.y as u32 + 100 <= 65535)
}

// How many commands a column has.
fn column_count(height: u32) -> usize
    ensures { result ≡ cond (eqb height 0) 1 2 }
{
    if height != 0 {
        return 2;
    }
    1
}

// How many commands the columns have.
pub fn column_commands(heights: &[u32]) -> usize
    requires { length heights.now ≤ 24 }
    ensures { result ≡ command_count heights.now }
{
    let mut n = 0;
    for height in heights {
        n += column_count(*height);
    }
    n
}

// A command whose numbers are all 0, for those that a command of the strip does not set.
const ZEROS: Command = Command {
    operation: 0,
    surface: 0,
    raster: 0,
    x: 0,
    y: 0,
    width: 0,
    height: 0,
    sx: 0,
    sy: 0,
    colour: 0,
    key: 0,
    px: 0,
    py: 0,
    pattern: 0,
};

// A fill on the main image.
fn fill_at(x: u32, y: u32, width: u32, height: u32, colour: u16) -> Command
    requires x_bound { (x ≤ 65535) × (y ≤ 65535) }
    requires width_bound { (width ≤ 65535) × (height ≤ 65535) }
    ensures { result ≡ fill_at x y width height colour }
{
    Command {
        x: x as u16,
        y: y as u16,
        width: width as u16,
        height: height as u16,
        colour,
        ..ZEROS
    }
}

// Stores the commands of column c at `at`; answers the place behind them.
fn put_column(list: &mut [u8], at: usize, a: Ask, c: u32, height: u32) -> usize
    requires checked { Checked a }
    requires c_bound { (c < 24) × (height ≤ 100) }
    requires height_value { all_in_reach (column a c height) ≡ true }
    requires height_in_bounds { at + length (list_bytes (column a c height)) ≤ length list.old }
    ensures value { result ≡ at + length (list_bytes (column a c height)) }
    ensures list_after { list.new ≡ sets list.old at (list_bytes (column a c height)) }
{
    let width = a.column;
    let x = a.x as u32 + c * width;
    let y = a.y as u32;
    put_command(list, at, fill_at(x, y, width, 100, a.background));
    if height == 0 {
        return at + 32;
    }
    put_command(
        list,
        at + 32,
        fill_at(x, y + 100 - height, width, height, a.bar),
    );
    at + 64
}

// Stores the columns' commands; answers the place behind them.
pub fn put_columns(list: &mut [u8], a: Ask, heights: &[u32]) -> usize
    requires checked { Checked a }
    requires drawable { Drawable heights.now }
    requires heights_value { all_in_reach (columns a 0 heights.now) ≡ true }
    requires heights_in_bounds { length (list_bytes (columns a 0 heights.now)) ≤ length list.old }
    ensures value { result ≡ length (list_bytes (columns a 0 heights.now)) }
    ensures list_after { list.new ≡ sets list.old 0 (list_bytes (columns a 0 heights.now)) }
{
    let mut at = 0;
    for (c, height) in heights.iter().enumerate() {
        at = put_column(list, at, a, c as u32, *height);
    }
    at
}

// A write of a glyph on the main image.
fn glyph_at(x: u32, y: u32) -> Command
    requires { (x ≤ 65535) × (y ≤ 65535) }
    ensures { result ≡ glyph_at x y }
{
    Command {
        operation: 2,
        raster: 12,
        x: x as u16,
        y: y as u16,
        width: 8,
        height: 8,
        ..ZEROS
    }
}

// Stores the number's commands at `at`.
pub fn put_writes(list: &mut [u8], at: usize, a: Ask, digits: &[u8])
    requires digits_len_bound { length digits.now ≤ 5 }
    requires digits_value { all_in_reach (writes a 0 digits.now) ≡ true }
    requires digits_in_bounds { at + length (list_bytes (writes a 0 digits.now)) ≤ length list.old }
    ensures { list.new ≡ sets list.old at (list_bytes (writes a 0 digits.now)) }
{
    for i in 0..digits.len() {
        let c = glyph_at(a.x as u32 + i as u32 * 8, a.y as u32 + 100);
        put_command(list, at + 32 * i, c);
    }
}
