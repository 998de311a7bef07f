// The C library: the functions of include/s1d.h.
#![tactic(auto)]

ghost use Rattle.std.specs.Prelude.{◌≡◌, length};
ghost use Rattle.refusal.specs.Number.{number_of};
ghost use Rattle.screen.specs.Screen.{memory_size};
ghost use Rattle.command.specs.Task.{short_form, long_form, task};
ghost use Rattle.screen.specs.Values.{values_with};
ghost use Rattle.compiler.specs.Compile.{compiling, buffer_after};
ghost use Rattle.chip.specs.Play.{playing, played};
ghost use Rattle.reader.specs.Read.{reading};
ghost use Rattle.reader.specs.Line.{line_number, line_after};
ghost use Rattle.reader.specs.Looking.{looking};
ghost use Rattle.unit.specs.Draw.{drawing, stream_drawn, memory_drawn};
ghost use Rattle.serial.specs.State.{new_player};
ghost use Rattle.serial.specs.Serial.{feeding, ended_player, end_answer, answer_of};
ghost use Rattle.older.specs.Bytes.{older_memory, older_values};
ghost use Rattle.older.specs.Compile.{older_compiling, older_buffer};
ghost use Rattle.ring.specs.Kept.{empty_ring, taking, hour_in, ring_in, cells_of};
ghost use Rattle.wear.specs.Font.{finding};
ghost use Rattle.wear.specs.Strip.{ask_with, strip_for, stripping, list_after, words_after};
ghost use Rattle.form.specs.Turn.{turning, turned_into};
ghost use Rattle.answers.specs.Answers.{compiled_of, display_with, point_of, drawn_of, values_in, hour_given, strip_given, glyph_given};

use answers::{S1dCompiled, S1dDrawn, S1dGlyph, S1dHour, S1dPoint, S1dStrip, S1dValues};
use form::Turned;
use older::OLDER_MEMORY;
use reader::{Display, Spot};
use refusal::Refusal;
use ring::Ring;
use screen::MEMORY_SIZE;
use serial::{Answer, Player};
use wear::Ask;

// Compiles a screen record, a list and host words into the stream buffer.
#[unsafe(no_mangle)]
pub extern "C" fn s1d_compile(
    form: u32,
    screen: &[u8],
    list: &[u8],
    words: &[u16],
    stream: &mut [u8],
) -> S1dCompiled
    ensures value { result ≡ compiled_of form (compiling memory_size (task form screen.now list.now words.now) (length stream.old)) list.now }
    ensures stream_after { stream.new ≡ buffer_after memory_size (task form screen.now list.now words.now) stream.old }
{
    let answer = compiler_code::compile_into(form, screen, list, words, stream);
    answers_code::compiled_of(form, answer, list)
}

// Plays a stream over the display memory.
#[unsafe(no_mangle)]
pub extern "C" fn s1d_play(stream: &[u8], memory: &mut [u8]) -> Answer
    ensures value { result ≡ answer_of (playing memory_size stream.now memory.old) }
    ensures memory_after { memory.new ≡ played memory_size stream.now memory.old }
{
    let answer = chip_code::play(stream, memory);
    answers_code::played_of(answer)
}

// Where the point reader looks for panel point (p, q), in a memory of so many bytes of which so many are lent, for both chips. It is lent no
// memory, since a pointer and a length that come from C are slow to hand on. A Display in place of its five numbers, here and in line_in,
// makes points and short lines slower to read, and so does the size as a const parameter.
fn look_in(
    depth: u32,
    rotation: u32,
    flag: u32,
    width: u32,
    height: u32,
    values: &[u32; 6],
    p: u32,
    q: u32,
    lent: u64,
    size: u64,
) -> Result<Spot, Refusal>
    ensures { result ≡ looking size (display_with depth rotation flag width height) (values_with values.now) p q lent }
{
    let d = Display {
        depth,
        rotation,
        flag,
        width,
        height,
    };
    let v = screen_values::values_given(*values);
    reader_code::look_for(size, d, v, p, q, lent)
}

// What panel point (p, q) shows, and where that stands in memory.
#[unsafe(no_mangle)]
pub extern "C" fn s1d_read_point(
    depth: u32,
    rotation: u32,
    flag: u32,
    width: u32,
    height: u32,
    values: &[u32; 6],
    p: u32,
    q: u32,
    memory: &[u8],
) -> S1dPoint
    ensures { result ≡ point_of (reading memory_size (display_with depth rotation flag width height) (values_with values.now) p q memory.now) }
{
    let at = look_in(
        depth,
        rotation,
        flag,
        width,
        height,
        values,
        p,
        q,
        memory.len() as u64,
        MEMORY_SIZE,
    );
    answers_code::point_of(reader_code::see(depth, memory, at))
}

// Fills the line with what panel line q shows in a memory of so many bytes, for both chips.
fn line_in(
    depth: u32,
    rotation: u32,
    flag: u32,
    width: u32,
    height: u32,
    values: &[u32; 6],
    q: u32,
    size: u64,
    memory: &[u8],
    line: &mut [u16],
) -> Result<(), Refusal>
    ensures value { number_of result ≡ line_number size (display_with depth rotation flag width height) (values_with values.now) q memory.now (length line.old) }
    ensures line_after { line.new ≡ line_after size (display_with depth rotation flag width height) (values_with values.now) q memory.now line.old }
{
    let at = look_in(
        depth,
        rotation,
        flag,
        width,
        height,
        values,
        0,
        q,
        memory.len() as u64,
        size,
    );
    let d = Display {
        depth,
        rotation,
        flag,
        width,
        height,
    };
    let v = screen_values::values_given(*values);
    reader_line::read_line_from(at, size, d, v, q, memory, line)
}

// Fills the line with what panel line q shows, a colour for each panel column.
#[unsafe(no_mangle)]
pub extern "C" fn s1d_read_line(
    depth: u32,
    rotation: u32,
    flag: u32,
    width: u32,
    height: u32,
    values: &[u32; 6],
    q: u32,
    memory: &[u8],
    line: &mut [u16],
) -> u32
    ensures value { result ≡ line_number memory_size (display_with depth rotation flag width height) (values_with values.now) q memory.now (length line.old) }
    ensures line_after { line.new ≡ line_after memory_size (display_with depth rotation flag width height) (values_with values.now) q memory.now line.old }
{
    let size = MEMORY_SIZE;
    let read = line_in(
        depth, rotation, flag, width, height, values, q, size, memory, line,
    );
    answers_code::number_of(read)
}

// Compiles, then plays the stream.
#[unsafe(no_mangle)]
pub extern "C" fn s1d_draw(
    form: u32,
    screen: &[u8],
    list: &[u8],
    words: &[u16],
    stream: &mut [u8],
    memory: &mut [u8],
) -> S1dDrawn
    ensures value { result ≡ drawn_of (drawing memory_size (task form screen.now list.now words.now) (length stream.old) memory.old) }
    ensures stream_after { stream.new ≡ stream_drawn memory_size (task form screen.now list.now words.now) stream.old memory.old }
    ensures memory_after { memory.new ≡ memory_drawn memory_size (task form screen.now list.now words.now) (length stream.old) memory.old }
{
    let answer = unit_code::draw(form, screen, list, words, stream, memory);
    answers_code::drawn_of(answer)
}

// A player that has read nothing.
#[unsafe(no_mangle)]
pub extern "C" fn s1d_new_player() -> Player
    ensures { result ≡ new_player }
{
    serial_state::new_player()
}

// Feeds a player a block of the stream, in place.
#[unsafe(no_mangle)]
pub extern "C" fn s1d_feed(player: &mut Player, block: &[u8], memory: &mut [u8]) -> Answer
    ensures value { result ≡ answer_of (feeding memory_size player.old block.now memory.old).answer }
    ensures player_after { player.new ≡ (feeding memory_size player.old block.now memory.old).player }
    ensures memory_after { memory.new ≡ (feeding memory_size player.old block.now memory.old).memory }
{
    let next = serial_code::take_block(*player, block, memory);
    *player = next.player;
    next.answer
}

// Ends the stream, in place.
#[unsafe(no_mangle)]
pub extern "C" fn s1d_end(player: &mut Player) -> Answer
    ensures value { result ≡ answer_of (end_answer player.old) }
    ensures player_after { player.new ≡ ended_player player.old }
{
    let next = serial_code::take_end(*player);
    *player = next.player;
    next.answer
}

// Compiles a screen record for the S1D13706 into the stream buffer.
#[unsafe(no_mangle)]
pub extern "C" fn s1d06_compile(
    form: u32,
    screen: &[u8],
    list: &[u8],
    words: &[u16],
    stream: &mut [u8],
) -> S1dCompiled
    ensures value { result ≡ compiled_of form (older_compiling (task form screen.now list.now words.now) (length stream.old)) list.now }
    ensures stream_after { stream.new ≡ older_buffer (task form screen.now list.now words.now) stream.old }
{
    let older = older_code::compile_into(form, screen, list, words, stream);
    answers_code::compiled_of(form, older, list)
}

// The six values that the S1D13706's eighteen register bytes make.
#[unsafe(no_mangle)]
pub extern "C" fn s1d06_values(bytes: &[u8; 18]) -> S1dValues
    ensures { result ≡ values_in (older_values bytes.now) }
{
    answers_code::values_in(older_code::values_from(bytes))
}

// What panel point (p, q) shows, and where that stands in the S1D13706's memory.
#[unsafe(no_mangle)]
pub extern "C" fn s1d06_read_point(
    depth: u32,
    rotation: u32,
    flag: u32,
    width: u32,
    height: u32,
    values: &[u32; 6],
    p: u32,
    q: u32,
    memory: &[u8],
) -> S1dPoint
    ensures { result ≡ point_of (reading older_memory (display_with depth rotation flag width height) (values_with values.now) p q memory.now) }
{
    let older = look_in(
        depth,
        rotation,
        flag,
        width,
        height,
        values,
        p,
        q,
        memory.len() as u64,
        OLDER_MEMORY,
    );
    answers_code::point_of(reader_code::see(depth, memory, older))
}

// Fills the line with what panel line q shows of the S1D13706's memory.
#[unsafe(no_mangle)]
pub extern "C" fn s1d06_read_line(
    depth: u32,
    rotation: u32,
    flag: u32,
    width: u32,
    height: u32,
    values: &[u32; 6],
    q: u32,
    memory: &[u8],
    line: &mut [u16],
) -> u32
    ensures value { result ≡ line_number older_memory (display_with depth rotation flag width height) (values_with values.now) q memory.now (length line.old) }
    ensures line_after { line.new ≡ line_after older_memory (display_with depth rotation flag width height) (values_with values.now) q memory.now line.old }
{
    let size = OLDER_MEMORY;
    let read = line_in(
        depth, rotation, flag, width, height, values, q, size, memory, line,
    );
    answers_code::number_of(read)
}

// A ring without a sample.
#[unsafe(no_mangle)]
pub extern "C" fn s1d_new_ring() -> Ring
    ensures { result ≡ empty_ring }
{
    ring_code::new_ring()
}

// Takes a sample into a ring, in place.
#[unsafe(no_mangle)]
pub extern "C" fn s1d_take_sample(ring: &mut [u16; 1026], sequence: u16, height: u32) -> u32
    ensures value { result ≡ (taking (ring_in ring.old) sequence height).number }
    ensures ring_after { ring.new ≡ cells_of (taking (ring_in ring.old) sequence height).ring }
{
    let taken = ring_code::take_into(ring, sequence, height);
    answers_code::number_of(taken)
}

// What a ring tells of the hour of an age.
#[unsafe(no_mangle)]
pub extern "C" fn s1d_hour_at(ring: &[u16; 1026], age: u32) -> S1dHour
    ensures { result ≡ hour_given (hour_in (ring_in ring.now) age) }
{
    let hour = ring_code::hour_in(ring, age);
    answers_code::hour_given(hour)
}

// The strip of a ring's last hours, as a list and host words.
#[unsafe(no_mangle)]
pub extern "C" fn s1d_wear_strip<'a>(
    ring: &[u16; 1026],
    hours: u32,
    depth: u32,
    x: u16,
    y: u16,
    column: u32,
    bar: u16,
    background: u16,
    site: &'a [u8],
    factory: &'a [u8],
    list: &mut [u8],
    words: &mut [u16],
) -> S1dStrip
    ensures value { result ≡ strip_given (stripping (strip_for (ring_in ring.now) (ask_with hours depth x y column bar background) site.now factory.now) (length list.old) (length words.old)) }
    ensures list_after { list.new ≡ list_after (strip_for (ring_in ring.now) (ask_with hours depth x y column bar background) site.now factory.now) list.old words.old }
    ensures words_after { words.new ≡ words_after (strip_for (ring_in ring.now) (ask_with hours depth x y column bar background) site.now factory.now) list.old words.old }
{
    let ask = Ask {
        hours,
        depth,
        x,
        y,
        column,
        bar,
        background,
    };
    let made = wear_code::strip_in(ring, ask, site, factory, list, words);
    answers_code::strip_given(made)
}

// Which font has a digit's glyph, and where.
#[unsafe(no_mangle)]
pub extern "C" fn s1d_find_glyph(site: &[u8], factory: &[u8], digit: u32) -> S1dGlyph
    ensures { result ≡ glyph_given (finding (length site.now) (length factory.now) digit) }
{
    let found = wear_glyph::find_glyph(site.len() as u64, factory.len() as u64, digit);
    answers_code::glyph_given(found)
}

// Turns a list of 32-byte records into one of 48-byte records.
#[unsafe(no_mangle)]
pub extern "C" fn s1d_to_long(list: &[u8], target: &mut [u8]) -> Turned
    ensures value { result ≡ turning short_form long_form list.now (length target.old) }
    ensures target_after { target.new ≡ turned_into short_form long_form list.now target.old }
{
    let turned = form_code::to_long(list, target);
    answers_code::turned_of(turned)
}

// Turns a list of 48-byte records back into one of 32-byte records.
#[unsafe(no_mangle)]
pub extern "C" fn s1d_to_short(list: &[u8], target: &mut [u8]) -> Turned
    ensures value { result ≡ turning long_form short_form list.now (length target.old) }
    ensures target_after { target.new ≡ turned_into long_form short_form list.now target.old }
{
    let turned = form_code::to_short(list, target);
    answers_code::turned_of(turned)
}
