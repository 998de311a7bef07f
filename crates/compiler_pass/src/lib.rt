// The two passes of compiling: the first decides number, place and length, the second writes the stream.
#![tactic(auto)]

ghost use Rattle.std.specs.Prelude.{◌≡◌, ◌+◌, ◌*◌, ◌≤◌, IfOk, true, length};
ghost use Rattle.std.proofs.lemmas.List.Edits.{sets};
ghost use Rattle.record.specs.Checks.{first_of};
ghost use Rattle.record.specs.Lists.{parts_of};
ghost use Rattle.record.specs.Record.{stream_bytes};
ghost use Rattle.screen.specs.Screen.{memory_size};
ghost use Rattle.command.specs.Task.{is_form, list_rows, first_refusal};
ghost use Rattle.compiler.specs.Stream.{records_with, screen_records, data_records, command_records, draw_records};
ghost use Rattle.compiler.specs.Pass.{pass_of};
ghost use Rattle.refusal.specs.Number.{number_of};

use command::Command;
use refusal::{Refusal, Refused};
use screen::Screen;

const SCREEN_REGISTERS: [u32; 6] = [0x40, 0x44, 0x50, 0x54, 0x58, 0x5C];

const BLIT_REGISTERS: [u32; 9] = [
    0x8008, 0x800C, 0x8010, 0x8014, 0x8018, 0x801C, 0x8020, 0x8024, 0x8000,
];

// Refusals 10 and 11.
pub fn check_list(form: u32, s: Screen, list: &[u8]) -> Result<(), Refusal>
    ensures { number_of result ≡ first_of (list_rows form s list.now) }
{
    record_code::first_of(&[
        (Refusal::ListLength, !command_code::is_list(form, list)),
        (Refusal::ListDepth, (0 < list.len()) & (s.depth < 8)),
    ])
}

// The first pass: the host words that the commands take, or the first refusal of one. Each command is lent on as a part of the list.
pub fn first_pass(form: u32, s: Screen, list: &[u8], left: u64) -> Result<u64, Refused>
    requires form_value { is_form form ≡ true }
    requires list_len_bound { length list.now ≤ 64 * form }
    ensures value { result ≡ pass_of memory_size s left (parts_of form list.now) }
    ensures used_bound { IfOk result (λ used. used ≤ 64 * 4294967295) }
{
    let mut used: u64 = 0;
    for (i, part) in list.chunks_exact(form as usize).enumerate() {
        match command_code::read_command(s, left - used, part) {
            Ok(c) => used += command_code::words_taken(s, c) as u64,
            Err(refusal) => {
                return Err(Refused {
                    refusal,
                    place: i as u64,
                });
            }
        }
    }
    Ok(used)
}

// Stores records of register numbers and their values from `at` on.
// Two slices, not pairs: `records_with` takes two lists, and `blit_values` gives a command's values alone.
pub fn put_records(buffer: &mut [u8], at: usize, numbers: &[u32], values: &[u64])
    requires numbers_len { length numbers.now ≡ length values.now }
    requires values_in_bounds { at + 8 * length values.now ≤ length buffer.old }
    ensures { buffer.new ≡ sets buffer.old at (stream_bytes (records_with numbers.now values.now)) }
{
    let mut to = at;
    for (number, value) in numbers.iter().zip(values) {
        record_code::put_number(buffer, to, *number as u64);
        record_code::put_number(buffer, to + 4, *value);
        to += 8;
    }
}

// Stores a record for each data word from `at` on.
fn put_words(buffer: &mut [u8], at: usize, words: &[u16])
    requires { at + 8 * length words.now ≤ length buffer.old }
    ensures { buffer.new ≡ sets buffer.old at (stream_bytes (data_records words.now)) }
{
    let mut to = at;
    for word in words {
        record_code::put_number(buffer, to, 0x10000);
        record_code::put_number(buffer, to + 4, *word as u64);
        to += 8;
    }
}

// Stores the six screen records at the buffer's start.
pub fn put_screen(s: Screen, buffer: &mut [u8])
    requires { 48 ≤ length buffer.old }
    ensures { buffer.new ≡ sets buffer.old 0 (stream_bytes (screen_records s)) }
{
    let v = screen_values::screen_values(s);
    let main = v.main;
    let window = v.window;
    let values = [
        main.start,
        main.offset,
        window.start,
        window.offset,
        v.x,
        v.y,
    ];
    put_records(buffer, 0, &SCREEN_REGISTERS, &values);
}

// Stores a command's records from `at` on.
fn put_command(s: Screen, c: Command, buffer: &mut [u8], at: usize, words: &[u16])
    requires { at + 72 + 8 * length words.now ≤ length buffer.old }
    ensures { buffer.new ≡ sets buffer.old at (stream_bytes (command_records s c words.now)) }
{
    let values = command_values::blit_values(s, c);
    put_records(buffer, at, &BLIT_REGISTERS, &values);
    put_words(buffer, at + 72, words);
}

// The second pass: stores the records of commands that the first pass accepts, behind the screen's.
pub fn second_pass(form: u32, s: Screen, list: &[u8], words: &[u16], buffer: &mut [u8])
    requires form_value { is_form form ≡ true }
    requires list_value { (first_refusal memory_size s 0 (length words.now) (parts_of form list.now)).number ≡ 0 }
    requires list_in_bounds { 48 + 8 * length (draw_records s words.now (parts_of form list.now)) ≤ length buffer.old }
    ensures { buffer.new ≡ sets buffer.old 48 (stream_bytes (draw_records s words.now (parts_of form list.now))) }
{
    let mut used: usize = 0;
    let mut at: usize = 48;
    for part in list.chunks_exact(form as usize) {
        let c = command_code::command_of(part);
        let n = command_code::words_taken(s, c) as usize;
        let end = used + n;
        put_command(s, c, buffer, at, &words[used..end]);
        at = at + 72 + 8 * n;
        used = end;
    }
}
