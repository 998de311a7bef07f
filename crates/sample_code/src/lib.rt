// What a line of a samples file means.
#![tactic(auto)]

ghost use Rattle.std.specs.Prelude.{◌≡◌, ◌≤◌, length, take, drop};
ghost use Rattle.std.specs.List.{position};
ghost use Rattle.sample.specs.Line.{stops as stopsAt, before, behind, sample_with, line_means};

use sample::{NoSample, Sample, Stop};

// Whether a letter ends a run.
fn stops(stop: Stop, c: u8) -> bool
    ensures { result ≡ stopsAt stop c }
{
    let space = (c == 32) | ((c == 9) | (c == 13));
    match stop {
        Stop::Space => space,
        Stop::Ink => !space,
        Stop::LineEnd => c == 10,
    }
}

// The place of the first letter that ends the run.
fn first_stop(stop: Stop, s: &[u8]) -> Option<usize>
    ensures { result ≡ position (stopsAt stop) s.now }
{
    s.iter().position(|c| stops(stop, *c))
}

// How many letters stand before the first that ends the run.
pub fn run_end(stop: Stop, s: &[u8]) -> usize
    ensures upper_bound { result ≤ length s.now }
    ensures s_value { take result s.now ≡ before stop s.now }
    ensures s_value_2 { drop result s.now ≡ behind stop s.now }
{
    first_stop(stop, s).unwrap_or(s.len())
}

// The letters before the first that ends the run.
pub fn before_stop<'a>(stop: Stop, s: &'a [u8]) -> &'a [u8]
    ensures { result.now ≡ before stop s.now }
{
    let n = run_end(stop, s);
    &s[..n]
}

// The letters from the first on that ends the run.
pub fn behind_run<'a>(stop: Stop, s: &'a [u8]) -> &'a [u8]
    ensures { result.now ≡ behind stop s.now }
{
    let from = run_end(stop, s);
    &s[from..]
}

// Two numbers as a sample.
fn sample_with(a: Option<u32>, b: Option<u32>) -> Result<Option<Sample>, NoSample>
    ensures { result ≡ sample_with a b }
{
    let a = a.ok_or(NoSample)?;
    let height = b.ok_or(NoSample)?;
    let sequence = u16::try_from(a).map_err(|_| NoSample)?;
    Ok(Some(Sample { sequence, height }))
}

// What a line means: a sample, nothing, or no sample.
pub fn line_means(line: &[u8]) -> Result<Option<Sample>, NoSample>
    ensures { result ≡ line_means line.now }
{
    let a = behind_run(Stop::Ink, line);
    if a.is_empty() {
        return Ok(None);
    }
    let b = behind_run(Stop::Ink, behind_run(Stop::Space, a));
    let c = behind_run(Stop::Ink, behind_run(Stop::Space, b));
    if !c.is_empty() {
        return Err(NoSample);
    }
    let sequence = text_lines::number_of(before_stop(Stop::Space, a));
    let height = text_lines::number_of(before_stop(Stop::Space, b));
    sample_with(sequence, height)
}
