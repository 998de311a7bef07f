// The ring of wear samples: an empty one, taking a sample, and what it tells of an hour.
#![tactic(auto)]

ghost use Rattle.std.specs.Prelude.{◌≡◌, ◌+◌, ◌-◌, ◌≤◌, true, length, take, replicate};
ghost use Rattle.ring.specs.Samples.{steps_to};
ghost use Rattle.ring.specs.Kept.{empty_ring, slot_of, takes as takesSample, hours_on, blanked, taking, taken_of, slot_hour, hour_in, telling_of, hour_of, heights_of, ring_in, cells_of};
ghost use Rattle.refusal.specs.Number.{number_of};
ghost use Rattle.ring_code.specs.View.{ring_of};

use refusal::Refusal;
use ring::Ring;

// An empty ring.
pub fn new_ring() -> Ring
    ensures { result ≡ empty_ring }
{
    Ring {
        any: 0,
        newest: 0,
        numbers: [0; 512],
        heights: [0; 512],
    }
}

// The steps from one sequence number on to another; the age of a sample is those from its number to the newest.
fn steps_to(from: u16, to: u16) -> u16
    ensures { result ≡ steps_to from to }
{
    std::num::wrapping_sub_u16(to, from)
}

// The slot of the hour that is so much older than that of number n.
fn slot_of(n: u16, age: u32) -> usize
    requires { age ≤ 512 }
    ensures { result ≡ slot_of n age }
{
    ((n as u32 + 65536 - age) % 512) as usize
}

// Whether a sample is taken.
fn takes(any: u16, newest: u16, sequence: u16, height: u32) -> bool
    ensures { result ≡ takesSample any newest sequence height }
{
    let steps = steps_to(newest, sequence);
    (height <= 100) & ((any == 0) | ((1 <= steps) & (steps <= 512)))
}

// The hours that a taken sample moves the ring on by.
fn hours_on(any: u16, newest: u16, sequence: u16) -> u32
    ensures { result ≡ hours_on any newest sequence }
{
    if any == 0 {
        return 512;
    }
    steps_to(newest, sequence) as u32
}

// Makes the hours before that of number n blank, so many of them, in numbers of which the heights are those from `from` on.
fn blank(cells: &mut [u16], from: usize, n: u16, hours: u32)
    requires from_in_bounds { from + 512 ≤ length cells.old }
    requires hours_bound { hours ≤ 511 }
    ensures { cells.new ≡ blanked from cells.old n hours }
{
    let at = slot_of(n, 0);
    let back = hours as usize;
    if back <= at {
        cells[from + at - back..from + at].fill(0);
        return;
    }
    cells[from..from + at].fill(0);
    cells[from + 512 - (back - at)..from + 512].fill(0);
}

// Takes a sample into the ring, or says why not.
pub fn take_sample(ring: Ring, sequence: u16, height: u32) -> Result<Ring, Refusal>
    ensures { result ≡ taken_of (taking ring sequence height) }
{
    if !takes(ring.any, ring.newest, sequence, height) {
        return Err(Refusal::WearRange);
    }
    let hours = hours_on(ring.any, ring.newest, sequence);
    let mut numbers = ring.numbers;
    let mut heights = ring.heights;
    blank(&mut heights, 0, sequence, hours - 1);
    let at = slot_of(sequence, 0);
    numbers[at] = sequence;
    heights[at] = (height + 1) as u16;
    Ok(Ring {
        any: 1,
        newest: sequence,
        numbers,
        heights,
    })
}

// The same in place, for a ring as 1,026 numbers. A view that lends both forms to be written would be no plainer: each of its four parts
// is a loan of its own, with a clause of its own.
fn take_cells(cells: &mut [u16], sequence: u16, height: u32) -> Result<(), Refusal>
    requires { length cells.old ≡ 1026 }
    ensures value { number_of result ≡ (taking (ring_in cells.old) sequence height).number }
    ensures cells_after { cells.new ≡ cells_of (taking (ring_in cells.old) sequence height).ring }
{
    let any = cells[0];
    let newest = cells[1];
    if !takes(any, newest, sequence, height) {
        return Err(Refusal::WearRange);
    }
    let hours = hours_on(any, newest, sequence);
    blank(cells, 514, sequence, hours - 1);
    let at = slot_of(sequence, 0);
    cells[0] = 1;
    cells[1] = sequence;
    cells[2 + at] = sequence;
    cells[514 + at] = (height + 1) as u16;
    Ok(())
}

// The same for a ring as a C caller holds it.
pub fn take_into(cells: &mut [u16; 1026], sequence: u16, height: u32) -> Result<(), Refusal>
    ensures value { number_of result ≡ (taking (ring_in cells.old) sequence height).number }
    ensures cells_after { cells.new ≡ cells_of (taking (ring_in cells.old) sequence height).ring }
{
    take_cells(cells, sequence, height)
}

// What is told of the hour of an age from its slot: the number of the sample there, and one more than its height.
fn slot_hour(
    any: u16,
    newest: u16,
    number: u16,
    held: u16,
    age: u32,
) -> Result<Option<u32>, Refusal>
    ensures result_value { telling_of result ≡ slot_hour any newest number held age }
    ensures value { result ≡ hour_of (slot_hour any newest number held age) }
{
    let at = steps_to(number, newest) as u32;
    if (any != 0) & ((at == age) & ((1 <= held) & (held <= 101))) {
        return Ok(Some(held as u32 - 1));
    }
    Ok(None)
}

// A ring lent to be read: a Ring's parts, or those of a C caller's numbers.
#[derive(Clone, Copy)]
struct View<'a> {
    any: u16,
    newest: u16,
    numbers: &'a [u16],
    heights: &'a [u16],
}

// A ring, lent.
fn view_of(ring: &Ring) -> View<'_>
    ensures ring { ring_of result ≡ ring.now }
    ensures numbers_len { length result.numbers.now ≡ 512 }
    ensures heights_len { length result.heights.now ≡ 512 }
{
    View {
        any: ring.any,
        newest: ring.newest,
        numbers: &ring.numbers,
        heights: &ring.heights,
    }
}

// A ring as a C caller holds it, lent.
fn view_in(cells: &[u16; 1026]) -> View<'_>
    ensures ring { ring_of result ≡ ring_in cells.now }
    ensures numbers_len { length result.numbers.now ≡ 512 }
    ensures heights_len { length result.heights.now ≡ 512 }
{
    View {
        any: cells[0],
        newest: cells[1],
        numbers: &cells[2..514],
        heights: &cells[514..1026],
    }
}

// What a ring tells of the hour of an age.
fn hour_told(v: View, age: u32) -> Result<Option<u32>, Refusal>
    requires numbers_len { length v.numbers.now ≡ 512 }
    requires heights_len { length v.heights.now ≡ 512 }
    ensures result_value { telling_of result ≡ hour_in (ring_of v.entry) age }
    ensures value { result ≡ hour_of (hour_in (ring_of v.entry) age) }
{
    if 511 < age {
        return Err(Refusal::WearRange);
    }
    let k = slot_of(v.newest, age);
    slot_hour(v.any, v.newest, v.numbers[k], v.heights[k], age)
}

// What the ring tells of the hour of an age.
pub fn hour_at(ring: Ring, age: u32) -> Result<Option<u32>, Refusal>
    ensures result_value { telling_of result ≡ hour_in ring age }
    ensures value { result ≡ hour_of (hour_in ring age) }
{
    hour_told(view_of(&ring), age)
}

// The same of a ring as a C caller holds it.
pub fn hour_in(cells: &[u16; 1026], age: u32) -> Result<Option<u32>, Refusal>
    ensures result_value { telling_of result ≡ hour_in (ring_in cells.now) age }
    ensures value { result ≡ hour_of (hour_in (ring_in cells.now) age) }
{
    hour_told(view_in(cells), age)
}

// The height that is told of an hour; 0 where there is none.
#[tactic(auto, unfolding(ring::specs::Kept::telling_by))]
fn height_of(hour: Result<Option<u32>, Refusal>) -> u32
    ensures { result ≡ (telling_of hour).height }
{
    match hour {
        Ok(Some(height)) => height,
        Ok(None) | Err(_) => 0,
    }
}

// The heights that a ring tells of the last hours, oldest first.
fn heights_told(v: View, hours: u32) -> [u32; 24]
    requires hours_bound { hours ≤ 24 }
    requires numbers_len { length v.numbers.now ≡ 512 }
    requires heights_len { length v.heights.now ≡ 512 }
    ensures result_value { take hours result ≡ heights_of (ring_of v.entry) hours }
    ensures result_len { length result ≡ 24 }
{
    let mut heights = [0u32; 24];
    for i in 0..hours {
        heights[i as usize] = height_of(hour_told(v, hours - 1 - i));
    }
    heights
}

// The heights of the last hours, oldest first.
pub fn heights_of(ring: Ring, hours: u32) -> [u32; 24]
    requires { hours ≤ 24 }
    ensures result_value { take hours result ≡ heights_of ring hours }
    ensures result_len { length result ≡ 24 }
{
    heights_told(view_of(&ring), hours)
}

// The same of a ring as a C caller holds it.
pub fn heights_in(cells: &[u16; 1026], hours: u32) -> [u32; 24]
    requires { hours ≤ 24 }
    ensures result_value { take hours result ≡ heights_of (ring_in cells.now) hours }
    ensures result_len { length result ≡ 24 }
{
    heights_told(view_in(cells), hours)
}
