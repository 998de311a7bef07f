// Draws the strip of a ring's last hours, and writes what the panel then shows to standard output.
#![tactic(auto)]

ghost use Rattle.std.specs.Prelude.{◌≡◌, length, replicate};
ghost use Rattle.wear.specs.Strip.{strip_for};
ghost use Rattle.font.specs.Factory.{factory_font};
ghost use Rattle.strip_show.specs.Drawn.{ask_for, strip_made, strip_drawn};

use panel_show::Asked;
use ring::Ring;
use wear::Ask;

// Room for a list of 64 commands.
fn list_room() -> [u8; 2048]
    ensures value { 2048 ≡ length result }
    ensures value_2 { result ≡ replicate 2048 0 }
{
    [0; 2048]
}

// Room for the host words of five glyphs at depth 16.
fn word_room() -> [u16; 320]
    ensures value { 320 ≡ length result }
    ensures value_2 { result ≡ replicate 320 0 }
{
    [0; 320]
}

// Draws the strip for an ask over the memory of a screen, and writes what the panel shows, or the refusal.
fn show_asked(
    rt: &(impl Print + Eprint),
    ring: Ring,
    ask: Ask,
    site: &[u8],
    screen: &[u8],
    memory: &mut [u8],
)
    ensures { memory.new ≡ strip_made (strip_for ring ask site.now factory_font) screen.now memory.old }
{
    let factory = font::factory_font();
    let mut list = list_room();
    let mut words = word_room();
    let made = wear_code::wear_strip(ring, ask, site, &factory, &mut list, &mut words);
    match made {
        Err(refusal) => {
            files::print_refusal(rt, refusal.into());
        }
        Ok(m) => {
            let nl = m.bytes as usize;
            let nw = m.words as usize;
            panel_show::run(
                rt,
                Asked::Picture,
                32,
                screen,
                &list[..nl],
                &words[..nw],
                memory,
            );
        }
    }
}

// An ask in a screen's depth.
fn ask_for(depth: u32, a: Ask) -> Ask
    ensures { result ≡ ask_for depth a }
{
    Ask {
        hours: a.hours,
        depth,
        x: a.x,
        y: a.y,
        column: a.column,
        bar: a.bar,
        background: a.background,
    }
}

// The strip of a ring's last hours in the depth of a screen.
pub fn show_strip(
    rt: &(impl Print + Eprint),
    ring: Ring,
    a: Ask,
    site: &[u8],
    screen: &[u8],
    memory: &mut [u8],
)
    ensures { memory.new ≡ strip_drawn ring a site.now screen.now memory.old }
{
    match screen_code::read_screen(screen) {
        Err(refusal) => {
            files::print_refusal(rt, refusal.into());
        }
        Ok(s) => {
            let ask = ask_for(s.depth as u32, a);
            show_asked(rt, ring, ask, site, screen, memory);
        }
    }
}
