// A player's state in its numbers, and a half-read record with a block behind it.
#![tactic(auto)]

ghost use Rattle.std.specs.Prelude.{◌≡◌, [], ◌++◌, ◌+◌, ◌≤◌, ◌<◌, min, length, take, replicate};
ghost use Rattle.std.proofs.Math.Seq.{paste};
ghost use Rattle.record.specs.Bytes.{byte_at, over};
ghost use Rattle.screen.specs.Narrow.{Narrow};
ghost use Rattle.serial.specs.State.{most_records, held_by, chip_of, player_of, new_player};

use chip::{Chip, Due, Registers};
use serial::{Player, Taking};

// A player that has read nothing.
#[tactic(auto, unfolding(chip::specs::Play::new_chip, serial::specs::State::player_of, serial::specs::State::new_player))]
pub fn new_player() -> Player
    ensures { result ≡ new_player }
{
    Player {
        values: [0; 6],
        blit: Registers::default(),
        due: 0,
        line: 0,
        word: 0,
        half: [0; 7],
        held: 0,
        count: 0,
        kept: 0,
        number: 0,
        place: 0,
    }
}

// Bytes of the half-read record; a length above 7 means 7.
pub fn held_by(p: Player) -> usize
    ensures { (result ≡ held_by p) × (result ≤ 7) }
{
    (p.held as usize).min(7)
}

// The registers, and the data that is due.
pub fn chip_of(p: Player) -> Chip
    ensures { (result ≡ chip_of p) × Narrow result.screen }
{
    let values = p.values;
    let screen = screen_values::values_given(values);
    let blit = p.blit;
    let due = Due {
        any: p.due != 0,
        line: p.line,
        word: p.word,
    };
    Chip { screen, blit, due }
}

// So many records more, as far as the count goes.
pub fn more_records(count: u64, more: u64) -> u64
    ensures { (result ≡ min (count + more) most_records) × (count ≤ most_records) }
{
    count.saturating_add(more)
}

// The player in a state whose half-read record is the first bytes of `half`.
pub fn player_with(t: Taking, half: [u8; 7], held: u8) -> Player
    requires { (held ≤ 7) × (half ≡ over (take held half) (replicate 7 0)) × Narrow t.chip.screen }
    ensures { result ≡ player_of (record { chip = t.chip; half = take held half; count = t.count; number = t.number }) }
{
    let chip = t.chip;
    let screen = chip.screen;
    let blit = chip.blit;
    let due = chip.due;
    let refused = t.number != 0;
    Player {
        values: screen_values::six_values(screen),
        blit,
        due: due.any as u32,
        line: due.line,
        word: due.word,
        half,
        held,
        count: t.count,
        kept: refused as u32,
        number: t.number,
        place: if refused { t.count } else { 0 },
    }
}

// The player after a refused record: nothing is half read.
pub fn refused_player(t: Taking) -> Player
    requires { Narrow t.chip.screen }
    ensures { result ≡ player_of (record { chip = t.chip; half = []; count = t.count; number = t.number }) }
{
    player_with(t, [0; 7], 0)
}

// Byte i of the half-read record and the block behind it.
pub fn joined_byte(half: [u8; 7], held: usize, block: &[u8], i: usize) -> u8
    requires { (held ≤ 7) × (i < held + length block.now) }
    ensures { result ≡ byte_at (take held half ++ block.now) i }
{
    if i < held {
        return half[i];
    }
    block[i - held]
}

// The first so many of these bytes, and zeros.
fn joined<const N: usize>(half: [u8; 7], held: usize, block: &[u8], count: usize) -> [u8; N]
    requires { (held ≤ 7) × (count ≤ N) × (count ≤ held + length block.now) }
    ensures { result ≡ paste (replicate N 0) 0 (take held half ++ block.now) count }
{
    let mut next = [0; N];
    for i in 0..count {
        next[i] = joined_byte(half, held, block, i);
    }
    next
}

// The first eight of these bytes: the record that the block makes whole.
pub fn joined_record(half: [u8; 7], held: usize, block: &[u8]) -> [u8; 8]
    requires { (held ≤ 7) × (8 ≤ held + length block.now) }
    ensures { result ≡ take 8 (take held half ++ block.now) }
{
    joined(half, held, block, 8)
}

// The half-read record with the block behind it, and zeros.
pub fn joined_half(half: [u8; 7], held: usize, block: &[u8]) -> [u8; 7]
    requires { held + length block.now ≤ 7 }
    ensures { result ≡ over (take held half ++ block.now) (replicate 7 0) }
{
    joined(half, held, block, held + block.len())
}
