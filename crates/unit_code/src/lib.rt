// The unit in two calls: draw a list, and say what a panel point then shows.
#![tactic(auto)]

ghost use Rattle.std.specs.Prelude.{◌≡◌, length};
ghost use Rattle.screen.specs.Screen.{memory_size};
ghost use Rattle.command.specs.Task.{task};
ghost use Rattle.reader.specs.Read.{reading_of};
ghost use Rattle.reader.specs.Read.{answer_of as point_of};
ghost use Rattle.unit.specs.Draw.{drawing, drawing_of, answer_of, memory_drawn, stream_drawn, showing};

use reader::Point;
use refusal::{Refusal, Refused};
use screen::MEMORY_SIZE;
use unit::Drawn;

// Compiles, then plays the stream: the memory is then the sheet's, or, on refusal, both buffers are as they were.
pub fn draw(
    form: u32,
    screen: &[u8],
    list: &[u8],
    words: &[u16],
    stream: &mut [u8],
    memory: &mut [u8],
) -> Result<Drawn, Refused>
    ensures result_value { drawing_of result ≡ drawing memory_size (task form screen.now list.now words.now) (length stream.old) memory.old }
    ensures value { result ≡ answer_of (drawing memory_size (task form screen.now list.now words.now) (length stream.old) memory.old) }
    ensures stream_after { stream.new ≡ stream_drawn memory_size (task form screen.now list.now words.now) stream.old memory.old }
    ensures memory_after { memory.new ≡ memory_drawn memory_size (task form screen.now list.now words.now) (length stream.old) memory.old }
{
    if memory.len() as u64 != MEMORY_SIZE {
        return Err(Refusal::MemoryLength.into());
    }
    let compiled = compiler_code::compile_into(form, screen, list, words, stream)?;
    let length = compiled.length;
    let end = length as usize;
    let values = chip_code::play(&stream[..end], memory)?;
    Ok(Drawn { length, values })
}

// What panel point (p, q) of a screen shows over a memory, and where that stands in it.
pub fn shown(screen: &[u8], p: u32, q: u32, memory: &[u8]) -> Result<Point, Refusal>
    ensures result_value { reading_of result ≡ showing memory_size screen.now p q memory.now }
    ensures value { result ≡ point_of (showing memory_size screen.now p q memory.now) }
{
    if memory.len() as u64 != MEMORY_SIZE {
        return Err(Refusal::MemoryLength);
    }
    let s = screen_code::read_screen(screen)?;
    let d = reader_code::display_of(s);
    let values = screen_values::screen_values(s);
    reader_code::read_point(d, values, p, q, memory)
}
