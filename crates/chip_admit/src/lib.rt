// The registers once a record is written, and admitting the records of a stream on registers and sizes alone.
#![tactic(auto)]

ghost use Rattle.std.specs.Prelude.{◌≡◌, false, ◌+◌, ◌-◌, ◌/◌, ◌≤◌, length};
ghost use Rattle.record.specs.Record.{records_from, records_of};
ghost use Rattle.chip.specs.Register.{listed, fits, screen_after, blit_after};
ghost use Rattle.chip.specs.Start.{whole_at, source_fits, startable, span, forward, backward, pattern_within, within};
ghost use Rattle.chip.specs.Admit.{is_data, starts, refusal, due_of, chip_after};
ghost use Rattle.chip.specs.Play.{new_chip, run, running_of};
ghost use Rattle.chip.specs.Words.{is_word, words_ahead, words_taken};
ghost use Rattle.refusal.specs.Number.{number_of};

use chip::{Chip, Due, Registers, Run};
use record::Record;
use refusal::{Refusal, Refused};
use screen::ScreenValues;

// Whether a number is a listed register or 10000h.
#[tactic(auto, unfolding(chip::specs::Register::listed))]
fn is_listed(number: u32) -> bool
    ensures { result ≡ listed number }
{
    match number {
        0x40 | 0x44 | 0x50 | 0x54 | 0x58 | 0x5C => true,
        0x8000 | 0x8008 | 0x800C | 0x8010 | 0x8014 | 0x8018 | 0x801C | 0x8020 | 0x8024 => true,
        0x10000 => true,
        _ => false,
    }
}

// Whether a value lies in the field of a register.
#[tactic(auto, unfolding(chip::specs::Register::fits))]
fn in_field(number: u32, value: u32) -> bool
    ensures { result ≡ fits number value }
{
    match number {
        0x40 | 0x50 | 0x8020 | 0x8024 | 0x10000 => value <= 0xFFFF,
        0x44 | 0x54 | 0x8018 | 0x801C => value <= 0x3FF,
        0x58 | 0x5C => (value % 65536 <= 0x3FF) & (value / 65536 <= 0x3FF),
        0x8000 => (value % 65536 <= 1) & ((value / 65536 == 0) | (value / 65536 == 4)),
        0x8008 => (value % 65536 <= 15) & (value / 65536 <= 15),
        0x800C | 0x8010 => value <= 0x3FFFF,
        0x8014 => value <= 0x7FF,
        _ => false,
    }
}

// The screen registers once a value is written.
#[tactic(auto, unfolding(chip::specs::Register::screen_after))]
fn screen_after(s: ScreenValues, number: u32, value: u32) -> ScreenValues
    ensures { result ≡ screen_after s number value }
{
    let v = value as u64;
    let mut next = s;
    match number {
        0x40 => next.main.start = v,
        0x44 => next.main.offset = v,
        0x50 => next.window.start = v,
        0x54 => next.window.offset = v,
        0x58 => next.x = v,
        0x5C => next.y = v,
        _ => {}
    }
    next
}

// The blit registers once a value is written.
#[tactic(auto, unfolding(chip::specs::Register::blit_after))]
pub fn blit_after(b: Registers, number: u32, value: u32) -> Registers
    ensures { result ≡ blit_after b number value }
{
    Registers {
        control: record_code::choose(number == 0x8000, value, b.control),
        command: record_code::choose(number == 0x8008, value, b.command),
        source: record_code::choose(number == 0x800C, value, b.source),
        destination: record_code::choose(number == 0x8010, value, b.destination),
        offset: record_code::choose(number == 0x8014, value, b.offset),
        width: record_code::choose(number == 0x8018, value, b.width),
        height: record_code::choose(number == 0x801C, value, b.height),
        background: record_code::choose(number == 0x8020, value, b.background),
        foreground: record_code::choose(number == 0x8024, value, b.foreground),
    }
}

// From the first byte of the first pixel to that of the last.
fn span_of(b: Registers) -> u64
    ensures { (result ≡ span b) × (result ≤ 4190208) }
{
    let lines = (b.height % 1024) as u64 * chip_due::line_of(b);
    let pixels = (b.width % 1024) as u64 * chip_due::bytes_of(b);
    lines + pixels
}

// Whether an address is one of whole pixels: even at depth 16.
fn is_whole(b: Registers, address: u32) -> bool
    ensures { result ≡ whole_at b address }
{
    if chip_due::bytes_of(b) == 1 {
        return true;
    }
    address % 2 == 0
}

// What is asked of the source address.
#[tactic(auto, unfolding(chip::specs::Start::source_fits))]
fn source_fits(b: Registers) -> bool
    ensures { result ≡ source_fits b }
{
    let source = chip_due::source_of(b);
    match chip_due::operation_of(b) {
        0 => source == 0,
        2 | 3 | 5 | 6 | 7 => is_whole(b, source),
        0xC => true,
        _ => false,
    }
}

// Refusal 21: whether the model has an operation for the start.
#[tactic(auto, unfolding(chip::specs::Start::startable))]
fn is_startable(b: Registers) -> bool
    ensures { result ≡ startable b }
{
    let fits = source_fits(b);
    fits & is_whole(b, chip_due::destination_of(b))
}

// Whether all bytes from an address on lie in the memory.
fn fits_forward(memory: u64, b: Registers, address: u32) -> bool
    ensures { result ≡ forward memory b address }
{
    address as u64 + span_of(b) + chip_due::bytes_of(b) <= memory
}

// Whether all bytes back from an address lie in the memory.
fn fits_backward(memory: u64, b: Registers, address: u32) -> bool
    ensures { result ≡ backward memory b address }
{
    let low = span_of(b) <= address as u64;
    let high = address as u64 + chip_due::bytes_of(b) <= memory;
    low & high
}

// Whether all bytes of the pattern lie in the memory.
fn fits_pattern(memory: u64, b: Registers) -> bool
    ensures { result ≡ pattern_within memory b }
{
    chip_due::pattern_base(b) as u64 + 64 * chip_due::bytes_of(b) <= memory
}

// Refusal 22: whether every byte that the blit touches lies in the memory.
#[tactic(auto, unfolding(chip::specs::Start::within))]
fn is_within(memory: u64, b: Registers) -> bool
    ensures { result ≡ within memory b }
{
    let source = chip_due::source_of(b);
    let destination = chip_due::destination_of(b);
    match chip_due::operation_of(b) {
        0 | 0xC => fits_forward(memory, b, destination),
        2 | 5 => fits_forward(memory, b, destination) & fits_forward(memory, b, source),
        3 => fits_backward(memory, b, destination) & fits_backward(memory, b, source),
        6 | 7 => fits_forward(memory, b, destination) & fits_pattern(memory, b),
        _ => true,
    }
}

// 8000h with bit 0 set.
pub fn starts_blit(r: Record) -> bool
    ensures { result ≡ starts r }
{
    (r.number == 0x8000) & (r.value % 2 == 1)
}

// Why a register write is refused, in a memory of so many bytes.
#[tactic(auto, unfolding(chip::specs::Admit::refusal, chip::specs::Admit::admit_rows, record::specs::Checks::first_of, refusal::specs::Number::number_by, refusal::specs::Number::number))]
fn register_refusal(memory: u64, c: Chip, r: Record) -> Result<(), Refusal>
    requires { is_data r ≡ false }
    ensures { number_of result ≡ refusal memory c r }
{
    // What lies in a field has a register that is listed.
    if !in_field(r.number, r.value) {
        return Err(if is_listed(r.number) {
            Refusal::Value
        } else {
            Refusal::Register
        });
    }
    if starts_blit(r) {
        let next = blit_after(c.blit, r.number, r.value);
        if !is_startable(next) {
            return Err(Refusal::Value);
        }
        if !is_within(memory, next) {
            return Err(Refusal::Reach);
        }
    }
    if c.due.any {
        return Err(Refusal::DataWord);
    }
    Ok(())
}

// Why a record is refused, in a memory of so many bytes.
#[tactic(auto, unfolding(chip::specs::Admit::refusal, chip::specs::Admit::admit_rows, record::specs::Checks::first_of, refusal::specs::Number::number_by, refusal::specs::Number::number, chip::specs::Register::listed, chip::specs::Register::fits))]
pub fn refusal_of(memory: u64, c: Chip, r: Record) -> Result<(), Refusal>
    ensures { number_of result ≡ refusal memory c r }
{
    if r.number != 0x10000 {
        return register_refusal(memory, c, r);
    }
    if 0xFFFF < r.value {
        return Err(Refusal::Value);
    }
    if c.due.any {
        Ok(())
    } else {
        Err(Refusal::DataWord)
    }
}

// What is due after a register write: a started write waits for its first word.
#[tactic(auto, unfolding(chip::specs::Admit::due_of))]
fn due_of(b: Registers, r: Record) -> Due
    ensures { result ≡ due_of b r }
{
    Due {
        any: starts_blit(r) & (chip_due::operation_of(b) == 0),
        ..Due::default()
    }
}

// The chip after a register write that is not refused.
#[tactic(auto, unfolding(chip::specs::Admit::chip_after))]
pub fn register_after(c: Chip, r: Record) -> Chip
    requires { is_data r ≡ false }
    ensures { result ≡ chip_after c r }
{
    let screen = screen_after(c.screen, r.number, r.value);
    let blit = blit_after(c.blit, r.number, r.value);
    let due = due_of(blit, r);
    Chip { screen, blit, due }
}

// All registers are 0, and no data is due.
#[tactic(auto, unfolding(chip::specs::Play::new_chip))]
pub fn new_chip() -> Chip
    ensures { result ≡ new_chip }
{
    Chip::default()
}

// Whether a record is a data word in its field.
fn is_word(r: Record) -> bool
    ensures { result ≡ is_word r }
{
    (r.number == 0x10000) & (r.value <= 0xFFFF)
}

// Data words at the front of so many records of a stream, from record i on.
pub fn words_ahead(stream: &[u8], i: usize, most: usize) -> usize
    requires { i + most ≤ length stream.now / 8 }
    ensures { result ≡ words_ahead (records_from stream.now i most) }
{
    for n in 0..most {
        let r = record_code::record_at(stream, i + n);
        if !is_word(r) {
            return n;
        }
    }
    most
}

// Data words from record i on that are due, of a stream's first records.
fn words_taken(c: Chip, stream: &[u8], i: usize, count: usize) -> usize
    requires { (i ≤ count) × (count ≤ length stream.now / 8) }
    ensures { result ≡ words_taken c (records_from stream.now i (count - i)) }
{
    let d = c.due;
    if !d.any {
        return 0;
    }
    let most = (chip_due::words_due(c.blit, d) as usize).min(count - i);
    words_ahead(stream, i, most)
}

// The first pass: admits the records of a stream in order, from a chip on, on registers and sizes alone. Due data words are taken
// at once, by their number and field.
pub fn check(memory: u64, start: Chip, stream: &[u8]) -> Run
    ensures { running_of result ≡ run memory start 0 (records_of stream.now) }
{
    let count = stream.len() / 8;
    let mut chip = start;
    let mut i = 0;
    // Due data words are taken several at once, so the step is not known.
    while i < count {
        let n = words_taken(chip, stream, i, count);
        if n == 0 {
            let r = record_code::record_at(stream, i);
            if let Err(refusal) = refusal_of(memory, chip, r) {
                let place = i as u64;
                return Run {
                    chip,
                    refused: Some(Refused { refusal, place }),
                };
            }
            chip = register_after(chip, r);
            i += 1;
        } else {
            chip = chip_due::words_after(chip, n as u64);
            i += n;
        }
    }
    Run {
        chip,
        refused: None,
    }
}
