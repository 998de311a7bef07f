// Draws a command list on a screen, and writes what a panel then shows to standard output: its picture, or one of its points.
#![tactic(auto)]

ghost use Rattle.std.specs.Prelude.{◌≡◌};
ghost use Rattle.screen.specs.Screen.{memory_size};
ghost use Rattle.command.specs.Task.{task};
ghost use Rattle.unit.specs.Draw.{drawing, answer_of, memory_drawn};

use refusal::Refused;
use screen::ScreenValues;
use unit::Drawn;

// What is asked for: the picture, or the line of panel point (p, q).
#[derive(Drop)]
pub enum Asked {
    Picture,
    Point(u32, u32),
}

// What is asked for of a screen with the six values that playing left, over the memory that drawing left.
fn show(
    rt: &(impl Print + Eprint),
    asked: Asked,
    screen: &[u8],
    values: ScreenValues,
    memory: &[u8],
) {
    match screen_code::read_screen(screen) {
        Err(refusal) => {
            files::print_refusal(rt, refusal.into());
        }
        Ok(s) => {
            let d = reader_code::display_of(s);
            match asked {
                Asked::Picture => {
                    picture_print::print_picture(rt, d, values, memory);
                }
                Asked::Point(p, q) => {
                    picture_print::print_point(rt, d, values, p, q, memory);
                }
            }
        }
    }
}

// Draws the list over the memory.
fn draw_on(
    form: u32,
    screen: &[u8],
    list: &[u8],
    words: &[u16],
    memory: &mut [u8],
) -> Result<Drawn, Refused>
    ensures value { result ≡ answer_of (drawing memory_size (task form screen.now list.now words.now) 2097152 memory.old) }
    ensures memory_after { memory.new ≡ memory_drawn memory_size (task form screen.now list.now words.now) 2097152 memory.old }
{
    let mut stream = files::stream();
    unit_code::draw(form, screen, list, words, &mut stream, memory)
}

// Draws the list over the memory, and writes what is asked for or the refusal.
pub fn run(
    rt: &(impl Print + Eprint),
    asked: Asked,
    form: u32,
    screen: &[u8],
    list: &[u8],
    words: &[u16],
    memory: &mut [u8],
)
    ensures { memory.new ≡ memory_drawn memory_size (task form screen.now list.now words.now) 2097152 memory.old }
{
    let drawn = draw_on(form, screen, list, words, memory);
    match drawn {
        Err(why) => {
            files::print_refusal(rt, why);
        }
        Ok(d) => {
            show(rt, asked, screen, d.values, memory);
        }
    }
}

// Draws the list over the memory on one screen, and writes what another shows of it, drawn on with an empty list. Or the refusal
// of the first that refuses.
pub fn run_through(
    rt: &(impl Print + Eprint),
    asked: Asked,
    form: u32,
    screen: &[u8],
    list: &[u8],
    words: &[u16],
    view: &[u8],
    memory: &mut [u8],
)
    ensures { memory.new ≡ memory_drawn memory_size (task form screen.now list.now words.now) 2097152 memory.old }
{
    let whole = draw_on(form, screen, list, words, memory);
    match whole {
        Err(why) => {
            files::print_refusal(rt, why);
        }
        Ok(_) => {
            run(rt, asked, 32, view, &[], &[], memory);
        }
    }
}
