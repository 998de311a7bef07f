// Turning a command list into its other form.
#![tactic(auto)]

ghost use Rattle.std.specs.Prelude.{◌≡◌, true, ◌&&◌, ◌+◌, ◌*◌, ◌/◌, ◌≤◌, length, ltb};
ghost use Rattle.std.proofs.lemmas.List.Edits.{sets};
ghost use Rattle.record.specs.Lists.{parts_of};
ghost use Rattle.command.specs.Task.{short_form, long_form, is_form};
ghost use Rattle.form.specs.Turn.{record_in, turned_list, any_stays_long, turning, turned_of, turned_into};

use refusal::Refusal;

// Whether a record of a long list has no short one: by its operation, or by a byte past 31.
fn any_stays_long(list: &[u8]) -> bool
    ensures { result ≡ any_stays_long (parts_of long_form list.now) }
{
    let count = list.len() / 48;
    let mut any = false;
    for i in 0..count {
        let at = i * 48;
        let past = at + 32;
        let end = at + 48;
        let zero = record_code::all_zero(&list[past..end]);
        any |= (2 < list[at]) | !zero;
    }
    any
}

// Whether a list that is turned into a shorter form has such a record.
fn stays_long(from: u32, to: u32, list: &[u8]) -> bool
    ensures { result ≡ (ltb to from && any_stays_long (parts_of long_form list.now)) }
{
    if to < from {
        return any_stays_long(list);
    }
    false
}

// Stores a record in a form from `at` on; its bytes are read before any is stored, so that 16 of them move at once.
fn put_record(b: &[u8], form: u32, target: &mut [u8], at: usize)
    requires form_value { is_form form ≡ true }
    requires in_bounds { 32 ≤ length b.now }
    requires form_in_bounds { at + form ≤ length target.old }
    ensures { target.new ≡ sets target.old at (record_in form b.now) }
{
    let mut first = [0; 32];
    first.copy_from_slice(&b[..32]);
    target[at..at + 32].copy_from_slice(&first);
    if form == 48 {
        target[at + 32..at + 48].fill(0);
    }
}

// Stores a list in form `from`, turned into form `to`, at the target's start.
fn put_list(from: u32, to: u32, list: &[u8], target: &mut [u8])
    requires from_value { is_form from ≡ true }
    requires to_value { is_form to ≡ true }
    requires to_in_bounds { length list.now / from * to ≤ length target.old }
    ensures { target.new ≡ sets target.old 0 (turned_list from to list.now) }
{
    let size = from as usize;
    let step = to as usize;
    let count = list.len() / size;
    for i in 0..count {
        let at = i * size;
        let end = at + size;
        put_record(&list[at..end], to, target, i * step);
    }
}

// Turns a list in form `from` into form `to`; answers the turned list's length.
fn turn(from: u32, to: u32, list: &[u8], target: &mut [u8]) -> Result<u64, Refusal>
    requires from_value { is_form from ≡ true }
    requires to_value { is_form to ≡ true }
    ensures value { turned_of result ≡ turning from to list.now (length target.old) }
    ensures target_after { target.new ≡ turned_into from to list.now target.old }
{
    if !command_code::is_list(from, list) {
        return Err(Refusal::ListLength);
    }
    let length = list.len() as u64 / from as u64 * to as u64;
    let short = (target.len() as u64) < length;
    let stays = stays_long(from, to, list);
    if short {
        return Err(Refusal::Room);
    }
    if stays {
        return Err(Refusal::LongOnly);
    }
    put_list(from, to, list, target);
    Ok(length)
}

// Turns a list of 32-byte records into one of 48-byte records; answers its length.
pub fn to_long(list: &[u8], target: &mut [u8]) -> Result<u64, Refusal>
    ensures value { turned_of result ≡ turning short_form long_form list.now (length target.old) }
    ensures target_after { target.new ≡ turned_into short_form long_form list.now target.old }
{
    turn(32, 48, list, target)
}

// Turns a list of 48-byte records back into one of 32-byte records; answers its length.
pub fn to_short(list: &[u8], target: &mut [u8]) -> Result<u64, Refusal>
    ensures value { turned_of result ≡ turning long_form short_form list.now (length target.old) }
    ensures target_after { target.new ≡ turned_into long_form short_form list.now target.old }
{
    turn(48, 32, list, target)
}
