// Numbers and records in byte slices.
#![tactic(auto)]

ghost use Rattle.std.specs.Prelude.{◌≡◌, ◌+◌, ◌-◌, ◌*◌, ◌/◌, ◌%◌, ◌≤◌, ◌<◌, cond, min, length};
ghost use Rattle.std.proofs.lemmas.List.Edits.{sets};
ghost use Rattle.record.specs.Bytes.{u16_at, u24_at, u32_at, four_bytes, all_zero};
ghost use Rattle.record.specs.Record.{record_bytes, record_at};
ghost use Rattle.record.specs.Checks.{any_of, first_of};
ghost use Rattle.refusal.specs.Number.{number_by, rows_from, found_by};

use record::Record;
use refusal::Numbered;

// A byte as a wider number.
pub fn wide(x: u8) -> u32
    ensures { (result ≡ x) × (result < 256) }
{
    u32::from(x)
}

// The number in two bytes, the low one first.
pub fn u16_at(b: &[u8], at: usize) -> u16
    requires { at + 2 ≤ length b.now }
    ensures { result ≡ u16_at b.now at }
{
    u16::from_le_bytes([b[at], b[at + 1]])
}

// The number in three bytes, the lowest first.
pub fn u24_at(b: &[u8], at: usize) -> u32
    requires { at + 3 ≤ length b.now }
    ensures { result ≡ u24_at b.now at }
{
    u32::from_le_bytes([b[at], b[at + 1], b[at + 2], 0])
}

// The number in four bytes, the lowest first.
pub fn u32_at(b: &[u8], at: usize) -> u32
    requires { at + 4 ≤ length b.now }
    ensures { result ≡ u32_at b.now at }
{
    u32::from_le_bytes([b[at], b[at + 1], b[at + 2], b[at + 3]])
}

// Whether each byte is zero. All are looked at, and not up to the first that is not (`all`): without a branch the loop is faster.
pub fn all_zero(b: &[u8]) -> bool
    ensures { result ≡ all_zero b.now }
{
    let mut zero = true;
    for x in b {
        zero &= *x == 0;
    }
    zero
}

// Stores the low 32 bits of a number at `at`, lowest byte first.
pub fn put_number(buffer: &mut [u8], at: usize, value: u64)
    requires { at + 4 ≤ length buffer.old }
    ensures { buffer.new ≡ sets buffer.old at (four_bytes value) }
{
    buffer[at..at + 4].copy_from_slice(&value.to_le_bytes()[..4]);
}

// Stores a record at `at`.
pub fn put_record(buffer: &mut [u8], at: usize, r: Record)
    requires { at + 8 ≤ length buffer.old }
    ensures { buffer.new ≡ sets buffer.old at (record_bytes r) }
{
    put_number(buffer, at, r.number as u64);
    put_number(buffer, at + 4, r.value as u64);
}

// Record i of a stream.
#[tactic(auto, unfolding(record::specs::Record::record_at))]
pub fn record_at(stream: &[u8], i: usize) -> Record
    requires { 8 * i + 8 ≤ length stream.now }
    ensures { result ≡ record_at stream.now i }
{
    let number = u32_at(stream, 8 * i);
    let value = u32_at(stream, 8 * i + 4);
    Record { number, value }
}

// The difference; 0 where it would be below.
pub fn minus(a: u64, b: u64) -> u64
    ensures { result ≡ a - b }
{
    a.saturating_sub(b)
}

// The quotient, cut off; 0 where there is no divisor.
pub fn quotient(a: u64, b: u64) -> u64
    ensures { result ≡ a / b }
{
    a.checked_div(b).unwrap_or(0)
}

// The remainder; the number itself where there is no divisor.
pub fn remainder(a: u64, b: u64) -> u64
    ensures { result ≡ a % b }
{
    a.checked_rem(b).unwrap_or(a)
}

// The first of two values, or else the second.
pub fn choose<T: Copy>(first: bool, a: T, b: T) -> T
    ensures { result ≡ cond first a b }
{
    if first { a } else { b }
}

// The lesser of two numbers.
pub fn least(a: usize, b: usize) -> usize
    ensures { result ≡ min a b }
{
    a.min(b)
}

// Whether one of the checks found something; all are looked at, as above.
fn any_of<T>(checks: &[(T, bool)]) -> bool
    ensures { result ≡ any_of (found_by checks.now) }
{
    let mut any = false;
    for (_, found) in checks {
        any |= *found;
    }
    any
}

// The refusal, or the number, of the first check that found something, which is asked of all at once.
pub fn first_of<T: Numbered>(checks: &[(T, bool)]) -> Result<(), T>
    ensures { number_by T.number_in result ≡ first_of (rows_from T.number_in checks.now) }
{
    if !any_of(checks) {
        return Ok(());
    }
    for (refusal, found) in checks {
        if *found {
            return Err(*refusal);
        }
    }
    Ok(())
}
