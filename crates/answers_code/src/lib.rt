// The answers of compiling, playing, reading and drawing, of the ring, of the strip and of turning as the C library's structs: functions,
// since both types of each conversion are another crate's, where no `impl From` can stand, and four of them require something of the values.
#![tactic(auto)]

ghost use Rattle.std.specs.Prelude.{◌≡◌, ◌^◌, ◌<◌};
ghost use Rattle.screen.specs.Narrow.{Narrow};
ghost use Rattle.compiler.specs.Compile.{compiling_by};
ghost use Rattle.chip.specs.Play.{playing_by};
ghost use Rattle.reader.specs.Read.{reading_by};
ghost use Rattle.unit.specs.Draw.{drawing_by};
ghost use Rattle.serial.specs.Serial.{answer_of};
ghost use Rattle.ring.specs.Kept.{telling_by};
ghost use Rattle.wear.specs.Font.{finding_by};
ghost use Rattle.wear.specs.Strip.{stripping_by};
ghost use Rattle.form.specs.Turn.{turned_of};
ghost use Rattle.refusal.specs.Number.{number_of};
ghost use Rattle.answers.specs.Answers.{compiled_of, point_of, drawn_of, values_in, hour_given, strip_given, glyph_given};

use answers::{S1dCompiled, S1dDrawn, S1dGlyph, S1dHour, S1dPoint, S1dStrip, S1dValues};
use compiler::Compiled;
use form::Turned;
use reader::Point;
use refusal::{Numbered, Refusal};
use screen::ScreenValues;
use serial::Answer;
use unit::Drawn;
use wear::{Glyph, Made};

// The number of an answer that gives nothing else: 0, or its refusal's.
#[tactic(auto, unfolding(refusal::specs::Number::number_by))]
pub fn number_of(a: Result<(), Refusal>) -> u32
    ensures { result ≡ number_of a }
{
    match a {
        Ok(()) => 0,
        Err(refusal) => refusal.number(),
    }
}

// Compiling's answer, with the refused command's part of the list.
pub fn compiled_of<E: Numbered>(form: u32, c: Result<Compiled, E>, list: &[u8]) -> S1dCompiled
    ensures { result ≡ compiled_of form (compiling_by E.number_in E.place_in c) list.now }
{
    let part = compiler_code::part_of(form, list, c);
    match c {
        Ok(made) => S1dCompiled {
            number: 0,
            place: 0,
            length: made.length,
            depth: made.depth,
            rotation: made.rotation,
            flag: made.flag,
            part_at: part.at,
            part_length: part.length,
        },
        Err(refused) => S1dCompiled {
            number: refused.as_number(),
            place: refused.as_place(),
            length: 0,
            depth: 0,
            rotation: 0,
            flag: 0,
            part_at: part.at,
            part_length: part.length,
        },
    }
}

// Playing's answer.
pub fn played_of<E: Numbered>(a: Result<ScreenValues, E>) -> Answer
    requires { Narrow (playing_by E.number_in E.place_in a).values }
    ensures { result ≡ answer_of (playing_by E.number_in E.place_in a) }
{
    match a {
        Ok(v) => Answer {
            number: 0,
            place: 0,
            values: screen_values::six_values(v),
        },
        Err(fault) => Answer {
            number: fault.as_number(),
            place: fault.as_place(),
            values: [0; 6],
        },
    }
}

// The point reader's answer.
pub fn point_of<E: Numbered>(a: Result<Point, E>) -> S1dPoint
    requires { (reading_by E.number_in a).address < 2 ^ 32 }
    ensures { result ≡ point_of (reading_by E.number_in a) }
{
    match a {
        Ok(point) => S1dPoint {
            number: 0,
            colour: point.colour as u32,
            address: point.address as u32,
            bit: point.bit,
        },
        Err(refusal) => S1dPoint {
            number: refusal.as_number(),
            colour: 0,
            address: 0,
            bit: 0,
        },
    }
}

// Drawing's answer.
pub fn drawn_of<E: Numbered>(a: Result<Drawn, E>) -> S1dDrawn
    requires { Narrow (drawing_by E.number_in E.place_in a).values }
    ensures { result ≡ drawn_of (drawing_by E.number_in E.place_in a) }
{
    match a {
        Ok(drawn) => S1dDrawn {
            number: 0,
            place: 0,
            length: drawn.length,
            values: screen_values::six_values(drawn.values),
        },
        Err(why) => S1dDrawn {
            number: why.as_number(),
            place: why.as_place(),
            length: 0,
            values: [0; 6],
        },
    }
}

// Six screen values.
pub fn values_in(v: ScreenValues) -> S1dValues
    requires { Narrow v }
    ensures { result ≡ values_in v }
{
    S1dValues {
        values: screen_values::six_values(v),
    }
}

// What is told of an hour.
#[tactic(auto, unfolding(answers::specs::Answers::hour_given, ring::specs::Kept::telling_by))]
pub fn hour_given<E: Numbered>(a: Result<Option<u32>, E>) -> S1dHour
    ensures { result ≡ hour_given (telling_by E.number_in a) }
{
    match a {
        Ok(Some(height)) => S1dHour {
            number: 0,
            sampled: 1,
            height,
        },
        Ok(None) => S1dHour {
            number: 0,
            sampled: 0,
            height: 0,
        },
        Err(refusal) => S1dHour {
            number: refusal.as_number(),
            sampled: 0,
            height: 0,
        },
    }
}

// The answer of making a strip.
#[tactic(auto, unfolding(answers::specs::Answers::strip_given, wear::specs::Strip::stripping_by))]
pub fn strip_given<E: Numbered>(a: Result<Made, E>) -> S1dStrip
    ensures { result ≡ strip_given (stripping_by E.number_in a) }
{
    match a {
        Ok(made) => S1dStrip {
            number: 0,
            list_length: made.bytes,
            words_length: made.words,
        },
        Err(refusal) => S1dStrip {
            number: refusal.as_number(),
            list_length: 0,
            words_length: 0,
        },
    }
}

// Where a digit's glyph stands.
#[tactic(auto, unfolding(answers::specs::Answers::glyph_given, wear::specs::Font::finding_by))]
pub fn glyph_given<E: Numbered>(a: Result<Glyph, E>) -> S1dGlyph
    ensures { result ≡ glyph_given (finding_by E.number_in a) }
{
    match a {
        Ok(Glyph::Site(at)) => S1dGlyph {
            number: 0,
            site: 1,
            at,
            length: 8,
        },
        Ok(Glyph::Factory(at)) => S1dGlyph {
            number: 0,
            site: 0,
            at,
            length: 8,
        },
        Err(refusal) => S1dGlyph {
            number: refusal.as_number(),
            site: 0,
            at: 0,
            length: 0,
        },
    }
}

// The answer of turning a list: its turned length, or why it was refused.
#[tactic(auto, unfolding(form::specs::Turn::turned_of))]
pub fn turned_of(a: Result<u64, Refusal>) -> Turned
    ensures { result ≡ turned_of a }
{
    let (number, length) = match a {
        Ok(length) => (0, length),
        Err(why) => (why.number(), 0),
    };
    Turned { number, length }
}
