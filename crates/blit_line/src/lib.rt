// One line of a blit: a source line copied, and a destination line, lent alone, drawn in the direction named.
#![tactic(auto)]

ghost use Rattle.std.specs.Prelude.{◌≡◌, cond, ◌+◌, ◌*◌, ◌≤◌, ◌<◌, length};
ghost use Rattle.pixel.specs.Pixel.{get_pixel, put_pixel};
ghost use Rattle.blit.specs.Job.{mix_of};
ghost use Rattle.blit.specs.declared.Mix.TheVariants.{Raster, Key};
ghost use Rattle.blit.specs.Line.{rank, lagged, work_line, copies, straight_line, copied, LineOk};

use blit::Mix;

// Pixels of one colour, side by side.
// Line, bytes and width are no struct: the public functions take them apart, and it would have to lend its line on to each callee.
fn fill_pixels<const BYTES: usize>(line: &mut [u8], width: usize, colour: u16)
    requires { LineOk BYTES width line.old }
    ensures { line.new ≡ straight_line BYTES (λ s d. s) (λ i. colour) width line.old }
{
    for i in 0..width {
        pixel_code::put_pixel(line, BYTES, i * BYTES, colour);
    }
}

// The bytes from an address on, copied to the start of a line, one by one: `copy_from_slice` makes the C library need memmove.
pub fn copy_bytes(from: &[u8], at: usize, size: usize, to: &mut [u8])
    requires { (size ≤ length to.old) × (at + size ≤ length from.now) }
    ensures { to.new ≡ copied from.now at size to.old }
{
    for i in 0..size {
        to[i] = from[at + i];
    }
}

// The source pixel, or the destination pixel where the source pixel is the key colour.
fn keyed<T: Copy + PartialEq>(key: T, s: T, d: T) -> T
    ensures { result ≡ cond (T.eq s key) d s }
{
    if s == key { d } else { s }
}

// What a source pixel and a destination pixel make.
pub fn mixed_pixel(mix: Mix, bytes: usize, s: u16, d: u16) -> u16
    requires { bytes ≤ 2 }
    ensures { result ≡ mix_of mix bytes s d }
{
    match mix {
        Mix::Store => s,
        Mix::Raster(code) => pixel_code::combine((8 * bytes) as u32, code, s, d),
        Mix::Key(key) => keyed(key, s, d),
    }
}

// Whether the source pixel is what is stored.
fn is_copy(mix: Mix) -> bool
    ensures { result ≡ copies mix }
{
    matches!(mix, Mix::Store | Mix::Raster(0xC))
}

// What a source pixel and the pixel at a place make, stored there.
fn combine_pixel(line: &mut [u8], bytes: usize, at: usize, mix: Mix, v: u16)
    requires { (0 < bytes) × (bytes ≤ 2) × (at + bytes ≤ length line.old) }
    ensures { line.new ≡ put_pixel bytes line.old at (mix_of mix bytes v (get_pixel bytes line.old at)) }
{
    let d = pixel_code::get_pixel(line, bytes, at);
    let r = mixed_pixel(mix, bytes, v, d);
    pixel_code::put_pixel(line, bytes, at, r);
}

// The bytes of a line, each combined with a source line's byte under a raster code. The masks are made once.
fn raster_bytes(line: &mut [u8], code: u8, source: &[u8])
    requires { length line.old ≤ length source.now }
    ensures { line.new ≡ straight_line 1 (mix_of (Raster code) 1) (λ i. get_pixel 1 source.now (i * 1)) (length line.old) line.old }
{
    let masks = pixel_code::masks_of(8, code);
    for i in 0..line.len() {
        let s = pixel_code::get_pixel(source, 1, i);
        let d = pixel_code::get_pixel(line, 1, i);
        let r = pixel_code::combine_under(masks, s, d);
        pixel_code::put_pixel(line, 1, i, r);
    }
}

// The pixels of a line, each replaced by the source line's unless that is the key colour. No branch depends on a pixel.
fn key_pixels<const BYTES: usize>(line: &mut [u8], width: usize, key: u16, source: &[u8])
    requires { LineOk BYTES width line.old × (width * BYTES ≤ length source.now) }
    ensures { line.new ≡ straight_line BYTES (mix_of (Key key) BYTES) (λ i. get_pixel BYTES source.now (i * BYTES)) width line.old }
{
    for i in 0..width {
        let at = i * BYTES;
        let s = pixel_code::get_pixel(source, BYTES, at);
        let d = pixel_code::get_pixel(line, BYTES, at);
        let r = keyed(key, s, d);
        pixel_code::put_pixel(line, BYTES, at, r);
    }
}

// The same at one byte to a pixel, and a key colour of one byte: bytes are compared as bytes, more of them at once.
fn key_bytes(line: &mut [u8], width: usize, key: u8, source: &[u8])
    requires { LineOk 1 width line.old × (width ≤ length source.now) }
    ensures { line.new ≡ straight_line 1 (mix_of (Key key) 1) (λ i. get_pixel 1 source.now (i * 1)) width line.old }
{
    for i in 0..width {
        line[i] = keyed(key, source[i], line[i]);
    }
}

// The same, with the bytes of a pixel as a constant of the loop.
fn key_worker(line: &mut [u8], bytes: usize, width: usize, key: u16, source: &[u8])
    requires { LineOk bytes width line.old × (width * bytes ≤ length source.now) }
    ensures { line.new ≡ straight_line bytes (mix_of (Key key) bytes) (λ i. get_pixel bytes source.now (i * bytes)) width line.old }
{
    if bytes == 2 {
        key_pixels::<2>(line, width, key, source);
    } else if let Ok(key) = u8::try_from(key) {
        key_bytes(line, width, key, source);
    } else {
        key_pixels::<1>(line, width, key, source);
    }
}

// Pixels of a source line and those of the line, mixed side by side. The mix is looked at once, not pixel by pixel.
fn combine_pixels(line: &mut [u8], bytes: usize, width: usize, mix: Mix, source: &[u8])
    requires { LineOk bytes width line.old × (width * bytes ≤ length source.now) }
    ensures { line.new ≡ straight_line bytes (mix_of mix bytes) (λ i. get_pixel bytes source.now (i * bytes)) width line.old }
{
    match mix {
        Mix::Store => copy_bytes(source, 0, width * bytes, line),
        Mix::Raster(code) => raster_bytes(line, code, source),
        Mix::Key(key) => key_worker(line, bytes, width, key, source),
    }
}

// Which pixel of a line, from its low end, is drawn as the n-th.
#[tactic(auto, unfolding(blit::specs::Line::rank))]
fn rank_of(down: bool, width: usize, n: usize) -> usize
    requires { n < width }
    ensures { (result ≡ rank down width n) × (result < width) }
{
    if down { width - 1 - n } else { n }
}

// The source of the n-th drawn pixel: from the source line, or, from the lag on, the line's own pixel that many pixels back.
#[tactic(auto, using(blit::proofs::Worker::lag_early, blit::proofs::Worker::lag_late))]
fn lagged_pixel(
    line: &[u8],
    down: bool,
    bytes: usize,
    width: usize,
    source: &[u8],
    lag: usize,
    n: usize,
) -> u16
    requires { LineOk bytes width line.now × (width * bytes ≤ length source.now) × (n < width) }
    ensures { result ≡ lagged down bytes width source.now lag line.now n }
{
    if n < lag {
        let k = rank_of(down, width, n);
        return pixel_code::get_pixel(source, bytes, k * bytes);
    }
    let k = rank_of(down, width, n - lag);
    pixel_code::get_pixel(line, bytes, k * bytes)
}

// The pixels of a line whose source, from the lag on, is the line itself, one by one in the direction named.
fn smear_pixels(
    line: &mut [u8],
    down: bool,
    bytes: usize,
    width: usize,
    mix: Mix,
    source: &[u8],
    lag: usize,
)
    requires { LineOk bytes width line.old × (width * bytes ≤ length source.now) }
    ensures { line.new ≡ work_line down bytes width mix source.now lag width line.old }
{
    for n in 0..width {
        let v = lagged_pixel(line, down, bytes, width, source, lag, n);
        let k = rank_of(down, width, n);
        combine_pixel(line, bytes, k * bytes, mix, v);
    }
}

// Draws one colour over a lent line. The bytes of a pixel are a constant of the loop.
pub fn fill_worker(line: &mut [u8], bytes: usize, width: usize, colour: u16)
    requires { LineOk bytes width line.old }
    ensures { line.new ≡ straight_line bytes (λ s d. s) (λ i. colour) width line.old }
{
    if bytes == 1 {
        fill_pixels::<1>(line, width, colour);
    } else {
        fill_pixels::<2>(line, width, colour);
    }
}

// Draws a source line over a lent line, pixel by pixel in the direction named. From the lag on the source is the line itself.
#[tactic(auto, using(blit::proofs::Straight::combine_work))]
pub fn pixel_worker(
    line: &mut [u8],
    down: bool,
    bytes: usize,
    width: usize,
    mix: Mix,
    source: &[u8],
    lag: usize,
)
    requires { LineOk bytes width line.old × (width * bytes ≤ length source.now) }
    ensures { line.new ≡ work_line down bytes width mix source.now lag width line.old }
{
    if lag < width {
        smear_pixels(line, down, bytes, width, mix, source, lag);
    } else {
        combine_pixels(line, bytes, width, mix, source);
    }
}

// The same, with the source line's bytes copied where a mix that copies does not smear.
#[tactic(auto, using(blit::proofs::Straight::copy_work))]
pub fn line_worker(
    line: &mut [u8],
    down: bool,
    bytes: usize,
    width: usize,
    mix: Mix,
    source: &[u8],
    lag: usize,
)
    requires { LineOk bytes width line.old × (width * bytes ≤ length source.now) }
    ensures { line.new ≡ work_line down bytes width mix source.now lag width line.old }
{
    if is_copy(mix) && width <= lag {
        copy_bytes(source, 0, width * bytes, line);
    } else {
        pixel_worker(line, down, bytes, width, mix, source, lag);
    }
}
