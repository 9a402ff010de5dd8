// The float board (docs/RULES.md, §16): the search of float readings, with an allowance and
// without.
#![tactic(auto)]

ghost use Rattle.std.specs.Prelude.{◌≡◌, ◌^◌, length, take, replicate};
ghost use Rattle.words.specs.Kinds.{kinds};
ghost use Rattle.code.specs.Sound.{default_allowance};
ghost use Rattle.code.specs.SoundInput.{SoundReadings};
ghost use Rattle.search.specs.RunnerUp.{runner_up_outcome_of, runner_up_outcome_by};
ghost use Rattle.search.specs.RunnerUp.{searching_with_runner_up};
ghost use Rattle.search.specs.Work.{with_bits, Searchable};
ghost use Rattle.float_numbers.specs.Whole.{wholes};
ghost use Rattle.float_walk.specs.Held.{count, Penalty};

use code::{Code, Refusal};
use search::{Found, WithRunnerUp};

// What the search reports and writes for the whole numbers that the readings are. A float that is
// no whole number is refused as a reading out of range is.
// stays: this and the three below are search's over floats; a trait for both would have to hold the
// tests, the walk and its end, which is all that they do.
pub fn search_float_within(
    r: u32,
    m: u32,
    allowed: u32,
    readings: &[f32],
    bits: &mut [u8],
    word: &mut [u8],
) -> WithRunnerUp
    ensures { runner_up_outcome_of result bits.new word.new
        ≡ searching_with_runner_up r m allowed (wholes readings.now)
        bits.old word.old }
{
    match float_code::admit(r, m, readings, bits.len(), word.len()) {
        Err(why) => WithRunnerUp::refused(why),
        Ok(code) => search_sound(code, allowed, readings, bits, word),
    }
}

// The same, with the default allowance.
pub fn search_float(
    r: u32,
    m: u32,
    readings: &[f32],
    bits: &mut [u8],
    word: &mut [u8],
) -> WithRunnerUp
    ensures { runner_up_outcome_of result bits.new word.new
        ≡ searching_with_runner_up r m default_allowance (wholes readings.now)
        bits.old word.old }
{
    search_float_within(r, m, Code::DEFAULT_ALLOWANCE, readings, bits, word)
}

fn search_sound(
    code: Code,
    allowed: u32,
    readings: &[f32],
    bits: &mut [u8],
    word: &mut [u8],
) -> WithRunnerUp
    requires { SoundReadings code (wholes readings.now)
        (length bits.old) (length word.old) }
    ensures { runner_up_outcome_of result bits.new word.new
        ≡ runner_up_outcome_by code.m (kinds code.r code.m) (wholes readings.now)
        allowed bits.old word.old }
{
    let mut kinds = [0u8; 256];
    let mut own = [0.0f32; 256];
    let n = code.length();
    code::put_kinds(code, &mut kinds[0..n]);
    bit_rows::copy(readings, &mut own[0..n]);
    let mut runner_up = [0u8; 256];
    let result = search_kinds(&own, &kinds, code.m, allowed, bits, word, &mut runner_up);
    WithRunnerUp { result, runner_up }
}

// The search over the words of any row of 2^m kinds. The walk holds its rows in arrays of its own,
// so that the buffers keep their contents if nothing is found; the runner-up's bits are put into an
// array of zeros that is lent.
fn search_kinds(
    readings: &[f32; 256],
    kinds: &[u8; 256],
    m: u32,
    allowed: u32,
    bits: &mut [u8],
    word: &mut [u8],
    runner_up: &mut [u8; 256],
) -> Result<Found, Refusal>
    requires { (runner_up.old ≡ replicate 256 0)
        × Searchable m (take (2 ^ m) (wholes readings.now)) (take (2 ^ m) kinds.now)
        bits.old word.old }
    ensures { runner_up_outcome_of (with_bits result runner_up.new) bits.new
        word.new
        ≡ runner_up_outcome_by m (take (2 ^ m) kinds.now)
        (take (2 ^ m) (wholes readings.now))
        allowed bits.old word.old }
{
    let mut best = [0u8; 256];
    let mut second = [0u8; 256];
    let (end, count) = float_walk::walk(readings, kinds, m, allowed, &mut best, &mut second);
    if count.out {
        return Err(Refusal::OutOfVisits(allowed));
    }
    let visits = count.visits;
    let penalty = whole(end.best);
    let gap = whole(end.second - end.best);
    if gap == 0 {
        return Err(Refusal::Tied { penalty, visits });
    }
    search::put_best(kinds, &best, m as usize, bits, word);
    search::put_second(kinds, &second, word.len(), bits.len(), runner_up);
    Ok(Found {
        penalty,
        gap,
        visits,
    })
}

// The count that a penalty is.
// stays: u32 has no From of a float; the contract says for which floats the cast is defined.
fn whole(x: f32) -> u32
    requires { Penalty x }
    ensures { result ≡ count x }
{
    x as u32
}
