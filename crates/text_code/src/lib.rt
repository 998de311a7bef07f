// The lines of a refusal and of a panel point. A text that has no room in its buffer is cut.
#![tactic(auto)]

mod reasons;

ghost use Rattle.std.specs.Prelude.{◌≡◌, map};
ghost use Rattle.text.specs.Text.{letters, decimal, Stored};
ghost use Rattle.text.specs.Refusal.{reasons, reason, refusal_line};
ghost use Rattle.text.specs.Lines.{point_line};

use reasons::REASONS;

// Stores bytes at `at`; answers the place behind them. They are few, and faster stored one by one than by `copy_from_slice`, a call each time.
pub fn put(text: &mut [u8], at: usize, bytes: &[u8]) -> usize
    ensures { Stored text.old at bytes.now text.new result }
{
    if text.len() < at {
        return text.len();
    }
    let n = bytes.len().min(text.len() - at);
    for i in 0..n {
        text[at + i] = bytes[i];
    }
    at + n
}

// Stores a number in decimal.
pub fn put_decimal(text: &mut [u8], at: usize, n: u64) -> usize
    ensures { Stored text.old at (decimal n) text.new result }
{
    let mut digits = [0u8; 20];
    let k = io::decimal(n, &mut digits);
    put(text, at, &digits[..k])
}

// The reason of a refusal, from the table of them; none of a number above its last.
fn reason_in(table: &[&'static [u8]; 30], number: u64) -> &'static [u8]
    requires { map (λ row. row.now) table.now ≡ map letters reasons }
    ensures { result.now ≡ reason number }
{
    if 29 < number {
        return b"";
    }
    table[number as usize]
}

// The line of a refusal; answers its bytes.
pub fn put_refusal(number: u64, place: u64, text: &mut [u8]) -> usize
    ensures { Stored text.old 0 (refusal_line number place) text.new result }
{
    let at = put(text, 0, b"refused ");
    let at = put_decimal(text, at, number);
    let at = put(text, at, b" ");
    let at = put_decimal(text, at, place);
    let at = put(text, at, b": ");
    let at = put(text, at, reason_in(&REASONS, number));
    put(text, at, b"\n")
}

// The line of a panel point; answers its bytes.
pub fn put_point(colour: u64, address: u64, bit: u64, text: &mut [u8]) -> usize
    ensures { Stored text.old 0 (point_line colour address bit) text.new result }
{
    let at = put(text, 0, b"colour ");
    let at = put_decimal(text, at, colour);
    let at = put(text, at, b" address ");
    let at = put_decimal(text, at, address);
    let at = put(text, at, b" bit ");
    let at = put_decimal(text, at, bit);
    put(text, at, b"\n")
}
