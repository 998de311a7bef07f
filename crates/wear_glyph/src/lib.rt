// Digits and their glyphs: which font has one, and the host words that draw it.
#![tactic(auto)]

ghost use Rattle.std.specs.Prelude.{◌≡◌, ◌+◌, ◌*◌, ◌≤◌, ◌<◌, [], ◌∷◌, length, take};
ghost use Rattle.std.proofs.lemmas.List.Edits.{sets};
ghost use Rattle.record.specs.Lists.{AllBelow};
ghost use Rattle.command.specs.Command.{line_words};
ghost use Rattle.wear.specs.Font.{finding, finding_of, GlyphPart, digits_of};
ghost use Rattle.wear.specs.Strip.{digits_in, glyph_words, digit_words};
ghost use Rattle.wear.specs.Limits.{Checked};

use refusal::Refusal;
use wear::{Ask, Digits, Glyph};

// Which font has a digit's glyph, and where; by the fonts' bytes.
pub fn find_glyph(site: u64, factory: u64, digit: u32) -> Result<Glyph, Refusal>
    ensures { finding_of result ≡ finding site factory digit }
{
    if (factory < 80) | (9 < digit) {
        return Err(Refusal::WearRange);
    }
    let at = 8 * digit as u64;
    if at + 8 <= site {
        return Ok(Glyph::Site(at));
    }
    Ok(Glyph::Factory(at))
}

// A digit's glyph, lent from the site font or, failing that, the factory font; else an empty part, at the factory font's start.
pub fn glyph<'a>(site: &'a [u8], factory: &'a [u8], digit: u32) -> &'a [u8]
    ensures { GlyphPart site.entry factory.entry result (finding (length site.now) (length factory.now) digit) }
{
    let found = find_glyph(site.len() as u64, factory.len() as u64, digit);
    match found {
        Ok(Glyph::Site(at)) => {
            let from = at as usize;
            return &site[from..from + 8];
        }
        Ok(Glyph::Factory(at)) => {
            let from = at as usize;
            return &factory[from..from + 8];
        }
        Err(_) => {
            return &factory[0..0];
        }
    }
}

// The digits of a number.
fn digits_of(n: u16) -> Digits
    ensures digits_value { take result.count result.digits ≡ digits_of n }
    ensures count_bound { result.count ≤ 5 }
{
    let ones = (n % 10) as u8;
    let tens = (n / 10 % 10) as u8;
    let hundreds = (n / 100 % 10) as u8;
    let thousands = (n / 1000 % 10) as u8;
    let highest = (n / 10000) as u8;
    if n < 10 {
        return Digits {
            count: 1,
            digits: [ones, 0, 0, 0, 0],
        };
    }
    if n < 100 {
        return Digits {
            count: 2,
            digits: [tens, ones, 0, 0, 0],
        };
    }
    if n < 1000 {
        return Digits {
            count: 3,
            digits: [hundreds, tens, ones, 0, 0],
        };
    }
    if n < 10000 {
        return Digits {
            count: 4,
            digits: [thousands, hundreds, tens, ones, 0],
        };
    }
    Digits {
        count: 5,
        digits: [highest, thousands, hundreds, tens, ones],
    }
}

// The digits of the newest number in a ring with or without a sample.
pub fn digits_in(any: u16, newest: u16) -> Digits
    ensures digits_value { take result.count result.digits ≡ digits_in any newest }
    ensures count_bound { result.count ≤ 5 }
{
    if any == 0 {
        return Digits {
            count: 0,
            digits: [0; 5],
        };
    }
    digits_of(newest)
}

// How many host words a glyph has.
pub fn words_per_glyph(a: Ask) -> usize
    ensures { result ≡ 8 * line_words a.depth 8 }
{
    if a.depth == 8 { 32 } else { 64 }
}

// Stores four words at `at`.
fn put_four(words: &mut [u16], at: usize, first: u16, second: u16, third: u16, fourth: u16)
    requires { at + 4 ≤ length words.old }
    ensures { words.new ≡ sets words.old at (first ∷ second ∷ third ∷ fourth ∷ []) }
{
    words[at] = first;
    words[at + 1] = second;
    words[at + 2] = third;
    words[at + 3] = fourth;
}

// The words of two pixels at depth 8 by their bits 00, 01, 10 and 11: the left pixel in the low byte.
fn pairs(a: Ask) -> [u16; 4]
    requires bar_bound { a.bar ≤ 255 }
    requires background_bound { a.background ≤ 255 }
    ensures { result ≡ (a.background + 256 * a.background) ∷ (a.background + 256 * a.bar) ∷ (a.bar + 256 * a.background) ∷ (a.bar + 256 * a.bar) ∷ [] }
{
    let bar = a.bar as u32;
    let back = a.background as u32;
    let left = (bar + 256 * back) as u16;
    let right = (back + 256 * bar) as u16;
    [
        (back + 256 * back) as u16,
        right,
        left,
        (bar + 256 * bar) as u16,
    ]
}

// Stores a glyph's host words at depth 8, four a line; looked up, since a branch on each pixel is slow.
fn put_narrow(words: &mut [u16], at: usize, a: Ask, glyph: &[u8])
    requires checked { Checked a }
    requires depth_value { a.depth ≡ 8 }
    requires glyph_len { length glyph.now ≡ 8 }
    requires at_in_bounds { at + 32 ≤ length words.old }
    ensures { words.new ≡ sets words.old at (glyph_words a glyph.now) }
{
    let p = pairs(a);
    for j in 0..8 {
        let row = usize::from(glyph[j]);
        put_four(
            words,
            at + 4 * j,
            p[(row >> 6) % 4],
            p[(row >> 4) % 4],
            p[(row >> 2) % 4],
            p[row % 4],
        );
    }
}

// Stores a glyph's host words at another depth, eight a line; a colour is looked up too.
fn put_wide(words: &mut [u16], at: usize, a: Ask, glyph: &[u8])
    requires fact { a.depth ≡ 8 → ⊥ }
    requires glyph_len { length glyph.now ≡ 8 }
    requires at_in_bounds { at + 64 ≤ length words.old }
    ensures { words.new ≡ sets words.old at (glyph_words a glyph.now) }
{
    let p = [a.background, a.bar];
    for k in 0..64 {
        let row = usize::from(glyph[k / 8]);
        words[at + k] = p[(row >> (7 - k % 8)) % 2];
    }
}

// Stores a glyph's host words at `at`.
fn put_glyph(words: &mut [u16], at: usize, a: Ask, glyph: &[u8])
    requires checked { Checked a }
    requires glyph_len { length glyph.now ≡ 8 }
    requires depth_in_bounds { at + 8 * line_words a.depth 8 ≤ length words.old }
    ensures { words.new ≡ sets words.old at (glyph_words a glyph.now) }
{
    if a.depth == 8 {
        put_narrow(words, at, a, glyph);
        return;
    }
    put_wide(words, at, a, glyph);
}

// Stores the host words of digits.
pub fn put_digits<'a>(words: &mut [u16], a: Ask, site: &'a [u8], factory: &'a [u8], digits: &[u8])
    requires checked { Checked a }
    requires in_bounds { 80 ≤ length factory.now }
    requires all_below { AllBelow 10 digits.now }
    requires digits_in_bounds { length (digit_words a site.now factory.now digits.now) ≤ length words.old }
    ensures { words.new ≡ sets words.old 0 (digit_words a site.now factory.now digits.now) }
{
    let n = words_per_glyph(a);
    for (i, digit) in digits.iter().enumerate() {
        let g = glyph(site, factory, u32::from(*digit));
        put_glyph(words, n * i, a, g);
    }
}
