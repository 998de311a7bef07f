// A player that is fed a stream in small blocks, and ended.
#![tactic(auto)]

ghost use Rattle.std.specs.Prelude.{◌≡◌, cond, eqb, length};
ghost use Rattle.record.specs.Record.{records_of};
ghost use Rattle.screen.specs.Screen.{memory_size};
ghost use Rattle.screen.specs.Narrow.{Narrow};
ghost use Rattle.chip.specs.Play.{refused_by, running_of};
ghost use Rattle.serial.specs.State.{state_of, player_of};
ghost use Rattle.serial.specs.Serial.{bytes_taken, kept_by, feeding, keeping, ended_player, end_answer, answer_of, fed_of};
ghost use Rattle.serial.specs.Taking.{stage_of, records_taken};

use chip::Run;
use refusal::Refusal;
use screen::MEMORY_SIZE;
use serial::{Answer, Fed, Player, Taking};

// Records of so many that a run takes: all, or those before the refused one.
#[tactic(auto, unfolding(chip::specs::Play::running_of, refusal::specs::Number::number_at, refusal::specs::Number::place_at))]
fn taken_by(r: Run, count: usize) -> usize
    ensures { result ≡ cond (eqb (running_of r).number 0) count (running_of r).place }
{
    match r.refused {
        Some(refused) => refused.place as usize,
        None => count,
    }
}

// The number of a run's refusal, or 0: the C interface has it so in a player.
#[tactic(auto, unfolding(chip::specs::Play::running_of, refusal::specs::Number::number_at))]
fn number_of(r: Run) -> u32
    ensures { result ≡ (running_of r).number }
{
    match r.refused {
        Some(refused) => refused.refusal.number(),
        None => 0,
    }
}

// The whole records of bytes, up to the first that is refused: admitted, then applied.
fn take_records(start: Taking, bytes: &[u8], memory: &mut [u8]) -> Taking
    requires { (start.number ≡ 0) × (length memory.old ≡ memory_size) × Narrow start.chip.screen }
    ensures { (stage_of result memory.new ≡ records_taken memory_size (stage_of start memory.old) (records_of bytes.now)) × Narrow result.chip.screen }
{
    let first = start.chip;
    let run = chip_admit::check(MEMORY_SIZE, first, bytes);
    let taken = taken_by(run, bytes.len() / 8);
    chip_code::perform_all(first, bytes, taken, memory);
    Taking {
        chip: run.chip,
        count: serial_state::more_records(start.count, taken as u64),
        number: number_of(run),
    }
}

// Bytes that begin with a record: the whole records, and what is left is half read.
fn take_rest(start: Taking, bytes: &[u8], memory: &mut [u8]) -> Player
    requires { (start.number ≡ 0) × (length memory.old ≡ memory_size) × Narrow start.chip.screen }
    ensures { (result ≡ player_of (bytes_taken memory_size (stage_of start memory.old) bytes.now).state)
        × (memory.new ≡ (bytes_taken memory_size (stage_of start memory.old) bytes.now).memory) }
{
    let t = take_records(start, bytes, memory);
    if t.number != 0 {
        return serial_state::refused_player(t);
    }
    let at = bytes.len() / 8 * 8;
    let rest = &bytes[at..];
    let half = serial_state::joined_half([0; 7], 0, rest);
    serial_state::player_with(t, half, rest.len() as u8)
}

// The bytes of a block, by a player that keeps no answer.
fn take_bytes(p: Player, block: &[u8], memory: &mut [u8]) -> Player
    requires { length memory.old ≡ memory_size }
    ensures { (result ≡ player_of (bytes_taken memory_size (record { state = state_of p; memory = memory.old }) block.now).state)
        × (memory.new ≡ (bytes_taken memory_size (record { state = state_of p; memory = memory.old }) block.now).memory) }
{
    let held = serial_state::held_by(p);
    let start = Taking {
        chip: serial_state::chip_of(p),
        count: p.count,
        number: 0,
    };
    if held == 0 {
        return take_rest(start, block, memory);
    }
    let half = p.half;
    let due = 8 - held;
    if block.len() < due {
        let more = serial_state::joined_half(half, held, block);
        return serial_state::player_with(start, more, (held + block.len()) as u8);
    }
    let whole = serial_state::joined_record(half, held, block);
    let t = take_records(start, &whole, memory);
    if t.number != 0 {
        return serial_state::refused_player(t);
    }
    take_rest(t, &block[due..], memory)
}

// A refusal's answer; number 0 and place 0 for a taken block.
#[tactic(auto, unfolding(serial::specs::Serial::answer_of))]
fn answer_with(number: u32, place: u64) -> Answer
    ensures { result ≡ answer_of (refused_by number place) }
{
    Answer {
        number,
        place,
        values: [0; 6],
    }
}

// The answer that a player keeps.
fn kept_answer(p: Player) -> Answer
    ensures { result ≡ answer_of (kept_by p) }
{
    if p.number != 0 {
        return answer_with(p.number, p.place);
    }
    let values = p.values;
    Answer {
        number: 0,
        place: 0,
        values,
    }
}

// Feeds a player a block of the stream: the player after it, and its answer.
pub fn take_block(p: Player, block: &[u8], memory: &mut [u8]) -> Fed
    ensures value { result ≡ fed_of (feeding memory_size p block.now memory.old).player (feeding memory_size p block.now memory.old).answer }
    ensures memory_after { memory.new ≡ (feeding memory_size p block.now memory.old).memory }
{
    if p.kept != 0 {
        let answer = kept_answer(p);
        return Fed { player: p, answer };
    }
    if memory.len() as u64 != MEMORY_SIZE {
        let answer = answer_with(Refusal::MemoryLength.number(), 0);
        return Fed { player: p, answer };
    }
    if 64 < block.len() {
        let answer = answer_with(Refusal::Block.number(), 0);
        return Fed { player: p, answer };
    }
    if serial_words::is_words(p, block) {
        let next = serial_words::take_words(p, block, memory);
        let answer = answer_with(next.number, next.place);
        return Fed {
            player: next,
            answer,
        };
    }
    let player = take_bytes(p, block, memory);
    let answer = answer_with(player.number, player.place);
    Fed { player, answer }
}

// The player that keeps an answer with this number and place.
#[tactic(auto, unfolding(serial::specs::Serial::keeping))]
fn keep(p: Player, number: u32, place: u64) -> Player
    ensures { result ≡ keeping p number place }
{
    let mut next = p;
    next.kept = 1;
    next.number = number;
    next.place = place;
    next
}

// The player after the end of the stream.
fn end_of(p: Player) -> Player
    ensures { result ≡ ended_player p }
{
    if 0 < p.kept {
        return p;
    }
    if p.held != 0 {
        return keep(p, Refusal::StreamLength.number(), 0);
    }
    if p.due != 0 {
        return keep(p, Refusal::DataWord.number(), p.count);
    }
    keep(p, 0, 0)
}

// Ends the stream: the player after it, and its answer.
#[tactic(auto, unfolding(serial::specs::Serial::fed_of))]
pub fn take_end(p: Player) -> Fed
    ensures { result ≡ fed_of (ended_player p) (end_answer p) }
{
    let last = end_of(p);
    let answer = kept_answer(last);
    Fed {
        player: last,
        answer,
    }
}
