// Pixels in memory, and raster codes.
#![tactic(auto)]

ghost use Rattle.std.specs.Prelude.{◌≡◌, true, ◌+◌, ◌-◌, ◌*◌, ◌/◌, ◌^◌, ◌≤◌, ◌<◌, min, max, length};
ghost use Rattle.pixel.specs.Depth.{is_depth, per_dword};
ghost use Rattle.pixel.specs.Pixel.{get_pixel, put_pixel, pixel_byte, pixel_bit, stored_pixel};
ghost use Rattle.pixel.specs.Raster.{bit, raster};
ghost use Rattle.pixel.specs.Masking.{masks_of, chosen, masked};

use pixel::Masks;

// Whether the chip has the depth.
#[tactic(auto, unfolding(pixel::specs::Depth::is_depth))]
pub fn is_depth(depth: u32) -> bool
    ensures { result ≡ is_depth depth }
{
    matches!(depth, 1 | 2 | 4 | 8 | 16)
}

// Pixels in a dword; 0 where the depth is 0.
pub fn per_dword(depth: u32) -> u32
    ensures { result ≡ per_dword depth }
{
    32u32.checked_div(depth).unwrap_or(0)
}

// The pixel of `bytes` bytes at a place of a part of memory.
pub fn get_pixel(s: &[u8], bytes: usize, at: usize) -> u16
    requires { (0 < bytes) × (bytes ≤ 2) × (at + bytes ≤ length s.now) }
    ensures { result ≡ get_pixel bytes s.now at }
{
    if bytes == 1 {
        return u16::from(s[at]);
    }
    u16::from_le_bytes([s[at], s[at + 1]])
}

// Stores a pixel of `bytes` bytes at a place of a part of memory.
pub fn put_pixel(s: &mut [u8], bytes: usize, at: usize, v: u16)
    requires { (0 < bytes) × (bytes ≤ 2) × (at + bytes ≤ length s.old) }
    ensures { s.new ≡ put_pixel bytes s.old at v }
{
    let [low, high] = v.to_le_bytes();
    s[at] = low;
    if bytes == 2 {
        s[at + 1] = high;
    }
}

// The address of pixel i of a dword: of its byte, at depth 16 of its low byte.
pub fn pixel_byte(depth: u32, dword: u64, i: u32) -> u64
    requires { (is_depth depth ≡ true) × (i < per_dword depth) × (4 * dword + 4 < 2 ^ 64) }
    ensures { result ≡ pixel_byte depth dword i }
{
    4 * dword + (i * depth / 8) as u64
}

// The place of its highest bit in that byte, at any depth.
pub fn pixel_bit(depth: u32, i: u32) -> u32
    requires { (is_depth depth ≡ true) × (i < per_dword depth) }
    ensures { result ≡ pixel_bit depth i }
{
    7 - i * depth % 8
}

// The pixel whose highest bit is the named bit of the byte at `at`, at any depth.
pub fn stored_pixel(depth: u32, memory: &[u8], at: usize, bit: u32) -> u16
    requires { (is_depth depth ≡ true) × (at + max 1 (depth / 8) ≤ length memory.now) × (bit ≤ 7) × (min depth 8 ≤ bit + 1) }
    ensures { result ≡ stored_pixel depth memory.now at bit }
{
    if depth == 16 {
        return get_pixel(memory, 2, at);
    }
    let right = bit + 1 - depth;
    (u16::from(memory[at]) >> right) % (1u16 << depth)
}

// So many ones.
fn ones(bits: u32) -> u16
    requires { bits ≤ 16 }
    ensures { result ≡ 2 ^ bits - 1 }
{
    ((1u32 << bits) - 1) as u16
}

// All of the ones where bit k of the code is 1, else 0.
fn mask(all: u16, code: u8, k: u32) -> u16
    requires { k < 8 }
    ensures { result ≡ all * bit code k }
{
    if (code >> k) % 2 == 0 { 0 } else { all }
}

// The masks of a raster code for numbers of so many bits.
#[tactic(auto, unfolding(pixel::specs::Masking::mask_of))]
pub fn masks_of(bits: u32, code: u8) -> Masks
    requires { bits ≤ 16 }
    ensures { result ≡ masks_of bits code }
{
    let all = ones(bits);
    Masks {
        neither: mask(all, code, 0),
        destination: mask(all, code, 1),
        source: mask(all, code, 2),
        both: mask(all, code, 3),
    }
}

// Each bit from a where x has 1, from b where it has 0.
#[tactic(auto, unfolding(pixel::specs::Masking::chosen))]
fn choose(x: u16, a: u16, b: u16) -> u16
    ensures { result ≡ chosen x a b }
{
    b ^ (x & (a ^ b))
}

// Source and destination pixel under masks, all bits together.
#[tactic(auto, unfolding(pixel::specs::Masking::masked))]
pub fn combine_under(masks: Masks, s: u16, d: u16) -> u16
    ensures { result ≡ masked masks s d }
{
    let high = choose(d, masks.both, masks.source);
    let low = choose(d, masks.destination, masks.neither);
    choose(s, high, low)
}

// Source and destination pixel combined under a raster code.
pub fn combine(bits: u32, code: u8, s: u16, d: u16) -> u16
    requires { bits ≤ 16 }
    ensures { result ≡ raster bits code s d }
{
    let masks = masks_of(bits, code);
    combine_under(masks, s, d)
}
