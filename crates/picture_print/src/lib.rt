// Writes a picture, or what one point shows, to standard output.
#![tactic(auto)]

ghost use Rattle.std.specs.Prelude.{◌<◌};
ghost use Rattle.files.specs.System.{YesOrNo};

use reader::Display;
use screen::ScreenValues;

// Writes the picture's head; answers whether it could.
fn print_head(rt: &(impl Print + Eprint), d: Display) -> bool
    ensures { YesOrNo result }
{
    let mut line = [0u8; 64];
    let n = picture_code::put_head(d, &mut line);
    files::print(rt, &line[..n])
}

// Writes line q of the picture, at most 1,024 points of three bytes; answers whether it could.
fn print_line(
    rt: &(impl Print + Eprint),
    d: Display,
    values: ScreenValues,
    q: u32,
    memory: &[u8],
) -> bool
    requires { q < d.height }
    ensures { YesOrNo result }
{
    let mut line = [0u8; 3072];
    let n = picture_code::put_points(d, values, q, memory, &mut line);
    files::print(rt, &line[..n])
}

// The whole picture.
pub fn print_picture(rt: &(impl Print + Eprint), d: Display, values: ScreenValues, memory: &[u8]) {
    if !print_head(rt, d) {
        return;
    }
    for q in 0..d.height {
        if !print_line(rt, d, values, q, memory) {
            return;
        }
    }
}

// The line of panel point (p, q), or of its refusal, at most 128 bytes.
pub fn print_point(
    rt: &(impl Print + Eprint),
    d: Display,
    values: ScreenValues,
    p: u32,
    q: u32,
    memory: &[u8],
) {
    let mut line = [0u8; 128];
    let n = picture_code::put_answer(d, values, p, q, memory, &mut line);
    files::print(rt, &line[..n]);
}
