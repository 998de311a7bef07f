// Playing a stream over a lent display memory: what each record does to it.
#![tactic(auto)]

ghost use Rattle.std.specs.Prelude.{◌≡◌, true, false, ◌/◌, ◌≤◌, length};
ghost use Rattle.record.specs.Record.{records_from};
ghost use Rattle.screen.specs.Screen.{memory_size};
ghost use Rattle.blit.specs.declared.From.TheVariants.{Pattern};
ghost use Rattle.chip.specs.Start.{pattern_base, pattern_line, pattern_column, startable, within, mix_by, from_by, job_of, started};
ghost use Rattle.chip.specs.Admit.{is_data, refusal, effect};
ghost use Rattle.chip.specs.Play.{run, applied, playing, played, playing_of, answer_of};

use blit::{From, Job, Mix};
use chip::{Chip, Due, Registers};
use record::Record;
use refusal::{Refusal, Refused};
use screen::{MEMORY_SIZE, ScreenValues};

// What source and destination pixel make.
#[tactic(auto, unfolding(chip::specs::Start::mix_by))]
fn mix_by(b: Registers) -> Mix
    ensures { result ≡ mix_by b }
{
    let operation = chip_due::operation_of(b);
    let code = chip_due::raster_code(b);
    match operation {
        0 | 2 | 3 | 6 => Mix::Raster(code),
        5 | 7 => Mix::Key(chip_due::key_of(b)),
        _ => Mix::Store,
    }
}

// The pattern that the registers name, and its first pixel.
fn pattern_of(b: Registers) -> From
    ensures { result ≡ Pattern (pattern_base b) (pattern_column b) (pattern_line b) }
{
    let base = chip_due::pattern_base(b);
    let column = chip_due::pattern_column(b);
    let line = chip_due::pattern_line(b);
    From::Pattern(base, column, line)
}

// Where the source pixels of a move, a pattern fill or a fill are.
#[tactic(auto, unfolding(chip::specs::Start::from_by))]
fn from_by(b: Registers) -> From
    ensures { result ≡ from_by b }
{
    let operation = chip_due::operation_of(b);
    let source = chip_due::source_of(b);
    let colour = chip_due::foreground_of(b);
    match operation {
        2 | 3 | 5 => From::Memory(source),
        6 | 7 => pattern_of(b),
        0xC => From::Colour(colour),
        _ => From::Colour(0),
    }
}

// The blit that the registers name.
#[tactic(auto, unfolding(chip::specs::Start::job_of))]
fn job_of(b: Registers) -> Job
    ensures { result ≡ job_of b }
{
    Job {
        down: chip_due::operation_of(b) == 3,
        bytes: chip_due::bytes_of(b) as usize,
        line: chip_due::line_of(b) as usize,
        width: chip_due::width_of(b) as usize,
        height: chip_due::height_of(b) as usize,
        mix: mix_by(b),
        from: from_by(b),
        destination: chip_due::destination_of(b),
    }
}

// What a started blit does by itself; a write waits for its data.
fn start(b: Registers, memory: &mut [u8])
    requires { (startable b ≡ true) × (within memory_size b ≡ true) × (length memory.old ≡ memory_size) }
    ensures { memory.new ≡ started b memory.old }
{
    if chip_due::operation_of(b) == 0 {
        return;
    }
    let job = job_of(b);
    blit_code::perform(job, memory);
}

// What a register write that is not refused does to the memory.
fn apply(c: Chip, r: Record, memory: &mut [u8])
    requires { (refusal memory_size c r ≡ 0) × (is_data r ≡ false) × (length memory.old ≡ memory_size) }
    ensures { memory.new ≡ effect c r memory.old }
{
    if !chip_admit::starts_blit(r) {
        return;
    }
    let next = chip_admit::blit_after(c.blit, r.number, r.value);
    start(next, memory);
}

// The second pass: applies the first records of a stream, which are admitted, from a chip on. Where a data word stands, all up to
// the last that is due are data words, and those of its line are drawn at once.
pub fn perform_all(start: Chip, stream: &[u8], count: usize, memory: &mut [u8])
    requires { (count ≤ length stream.now / 8) × ((run memory_size start 0 (records_from stream.now 0 count)).number ≡ 0) × (length memory.old ≡ memory_size) }
    ensures { memory.new ≡ applied start (records_from stream.now 0 count) memory.old }
{
    let mut chip = start;
    let mut i = 0;
    // The words of a line are taken several at once, so the step is not known.
    while i < count {
        let r = record_code::record_at(stream, i);
        if r.number == 0x10000 {
            let b = chip.blit;
            let d = Due {
                any: true,
                ..chip.due
            };
            let n = (chip_due::line_due(b, d) as usize).min(count - i);
            chip_words::write_line(b, d, stream, i, n, memory);
            chip = chip_due::line_after(chip, n as u64);
            i += n;
        } else {
            apply(chip, r, memory);
            chip = chip_admit::register_after(chip, r);
            i += 1;
        }
    }
}

// Plays a stream over the memory: the last six screen values, or the first refusal and its place.
pub fn play(stream: &[u8], memory: &mut [u8]) -> Result<ScreenValues, Refused>
    ensures result_value { playing_of result ≡ playing memory_size stream.now memory.old }
    ensures value { result ≡ answer_of (playing memory_size stream.now memory.old) }
    ensures memory_after { memory.new ≡ played memory_size stream.now memory.old }
{
    if memory.len() as u64 != MEMORY_SIZE {
        return Err(Refusal::MemoryLength.into());
    }
    if stream.len() % 8 != 0 {
        return Err(Refusal::StreamLength.into());
    }
    let start = chip_admit::new_chip();
    let run = chip_admit::check(MEMORY_SIZE, start, stream);
    if let Some(refused) = run.refused {
        return Err(refused);
    }
    let chip = run.chip;
    let count = stream.len() / 8;
    if chip.due.any {
        return Err(Refused {
            refusal: Refusal::DataWord,
            place: count as u64,
        });
    }
    perform_all(start, stream, count, memory);
    Ok(chip.screen)
}
