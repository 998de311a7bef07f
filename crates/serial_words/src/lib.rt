// A block that is data words of one line alone, taken in the player's own numbers.
#![tactic(auto)]

ghost use Rattle.std.specs.Prelude.{◌≡◌, true};
ghost use Rattle.screen.specs.Screen.{memory_size};
ghost use Rattle.serial.specs.State.{state_of, player_of};
ghost use Rattle.serial.specs.Serial.{bytes_taken};
ghost use Rattle.serial.specs.Taking.{words_alone};

use chip::Due;
use serial::Player;

// Whether nothing is half read, and a block is whole records, all of them due words of one line.
pub fn is_words(p: Player, block: &[u8]) -> bool
    ensures { result ≡ words_alone p block.now }
{
    if p.held != 0 {
        return false;
    }
    if p.due == 0 {
        return false;
    }
    if block.len() % 8 != 0 {
        return false;
    }
    let n = block.len() / 8;
    if n == 0 {
        return false;
    }
    let d = Due {
        any: true,
        line: p.line,
        word: p.word,
    };
    if chip_due::line_due(p.blit, d) < n as u64 {
        return false;
    }
    chip_admit::words_ahead(block, 0, n) == n
}

// The player after such a block; its words are drawn as one line.
pub fn take_words(p: Player, block: &[u8], memory: &mut [u8]) -> Player
    requires { words_alone p block.now ≡ true }
    ensures { (result ≡ player_of (bytes_taken memory_size (record { state = state_of p; memory = memory.old }) block.now).state)
        × (memory.new ≡ (bytes_taken memory_size (record { state = state_of p; memory = memory.old }) block.now).memory) }
{
    let n = block.len() / 8;
    let blit = p.blit;
    let first = Due {
        any: true,
        line: p.line,
        word: p.word,
    };
    chip_words::write_line(blit, first, block, 0, n, memory);
    let due = chip_due::due_in_line(blit, first, n as u64);
    let mut next = p;
    next.due = due.any as u32;
    next.line = due.line;
    next.word = due.word;
    next.half = [0; 7];
    next.held = 0;
    next.count = serial_state::more_records(p.count, n as u64);
    next.kept = 0;
    next.number = 0;
    next.place = 0;
    next
}
