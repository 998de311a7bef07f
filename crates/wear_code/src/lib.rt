// The wear strip: the list and the host words that draw the last hours of a ring, and the newest number below them.
#![tactic(auto)]

ghost use Rattle.std.specs.Prelude.{◌≡◌, ◌≤◌, length};
ghost use Rattle.record.specs.Lists.{AllBelow};
ghost use Rattle.record.specs.Checks.{first_of};
ghost use Rattle.ring.specs.Kept.{ring_in};
ghost use Rattle.wear.specs.Strip.{strip_with, strip_for, ask_rows, stripping, list_after, words_after, stripping_of, answer_of};
ghost use Rattle.wear.specs.Limits.{Drawable};
ghost use Rattle.refusal.specs.Number.{number_of};

use refusal::Refusal;
use ring::Ring;
use wear::{Ask, Made};

// The first refusal of the checks that ask for no command; by the factory font's bytes.
fn check_ask(a: Ask, factory: u64) -> Result<(), Refusal>
    ensures { number_of result ≡ first_of (ask_rows a factory) }
{
    let narrow = a.depth == 8;
    record_code::first_of(&[
        (Refusal::Depth, !pixel_code::is_depth(a.depth)),
        (Refusal::ListDepth, a.depth < 8),
        (
            Refusal::CommandForm,
            narrow & ((255 < a.bar) | (255 < a.background)),
        ),
        (Refusal::WearRange, !((1 <= a.hours) & (a.hours <= 24))),
        (Refusal::WearRange, !((1 <= a.column) & (a.column <= 16))),
        (Refusal::WearRange, factory < 80),
    ])
}

// The strip of heights and digits, for an ask that has no fault.
fn make_strip<'a>(
    a: Ask,
    heights: &[u32],
    digits: &[u8],
    site: &'a [u8],
    factory: &'a [u8],
    list: &mut [u8],
    words: &mut [u16],
) -> Result<Made, Refusal>
    requires factory_value { first_of (ask_rows a (length factory.now)) ≡ 0 }
    requires drawable { Drawable heights.now }
    requires all_below { AllBelow 10 digits.now }
    requires digits_len_bound { length digits.now ≤ 5 }
    ensures result_value { stripping_of result ≡ stripping (strip_with a heights.now digits.now site.now factory.now) (length list.old) (length words.old) }
    ensures list_after { list.new ≡ list_after (strip_with a heights.now digits.now site.now factory.now) list.old words.old }
    ensures words_after { words.new ≡ words_after (strip_with a heights.now digits.now site.now factory.now) list.old words.old }
{
    let reach = wear_list::columns_reach(a, heights) & wear_list::writes_reach(a, digits);
    let bytes = 32 * (wear_list::column_commands(heights) + digits.len());
    let count = digits.len() * wear_glyph::words_per_glyph(a);
    let short = (list.len() < bytes) | (words.len() < count);
    if !reach {
        return Err(Refusal::WearRange);
    }
    if short {
        return Err(Refusal::Room);
    }
    let at = wear_list::put_columns(list, a, heights);
    wear_list::put_writes(list, at, a, digits);
    wear_glyph::put_digits(words, a, site, factory, digits);
    Ok(Made {
        bytes: bytes as u64,
        words: count as u64,
    })
}

// The strip of the last hours of a ring, as a list and host words.
pub fn wear_strip<'a>(
    ring: Ring,
    a: Ask,
    site: &'a [u8],
    factory: &'a [u8],
    list: &mut [u8],
    words: &mut [u16],
) -> Result<Made, Refusal>
    ensures result_value { stripping_of result ≡ stripping (strip_for ring a site.now factory.now) (length list.old) (length words.old) }
    ensures value { result ≡ answer_of (stripping (strip_for ring a site.now factory.now) (length list.old) (length words.old)) }
    ensures list_after { list.new ≡ list_after (strip_for ring a site.now factory.now) list.old words.old }
    ensures words_after { words.new ≡ words_after (strip_for ring a site.now factory.now) list.old words.old }
{
    check_ask(a, factory.len() as u64)?;
    let heights = ring_code::heights_of(ring, a.hours);
    let d = wear_glyph::digits_in(ring.any, ring.newest);
    let n = a.hours as usize;
    let k = d.count as usize;
    let digits = d.digits;
    make_strip(a, &heights[..n], &digits[..k], site, factory, list, words)
}

// The same of a ring as a C caller holds it. Only how the heights and the newest number are read differs: a trait over both forms would be
// longer.
pub fn strip_in<'a>(
    cells: &[u16; 1026],
    a: Ask,
    site: &'a [u8],
    factory: &'a [u8],
    list: &mut [u8],
    words: &mut [u16],
) -> Result<Made, Refusal>
    ensures result_value { stripping_of result ≡ stripping (strip_for (ring_in cells.now) a site.now factory.now) (length list.old) (length words.old) }
    ensures value { result ≡ answer_of (stripping (strip_for (ring_in cells.now) a site.now factory.now) (length list.old) (length words.old)) }
    ensures list_after { list.new ≡ list_after (strip_for (ring_in cells.now) a site.now factory.now) list.old words.old }
    ensures words_after { words.new ≡ words_after (strip_for (ring_in cells.now) a site.now factory.now) list.old words.old }
{
    check_ask(a, factory.len() as u64)?;
    let told = ring_code::heights_in(cells, a.hours);
    let d = wear_glyph::digits_in(cells[0], cells[1]);
    let n = a.hours as usize;
    let k = d.count as usize;
    let digits = d.digits;
    make_strip(a, &told[..n], &digits[..k], site, factory, list, words)
}
