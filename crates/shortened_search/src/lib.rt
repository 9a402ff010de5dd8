// The search on a shortened set (docs/RULES.md, §15): with an allowance and without.
#![tactic(auto)]

ghost use Rattle.std.specs.Prelude.{◌≡◌, length};
ghost use Rattle.numbers.specs.Sums.{sum};
ghost use Rattle.words.specs.Kinds.{kinds};
ghost use Rattle.code.specs.Sound.{Sound, default_allowance};
ghost use Rattle.code.specs.SoundInput.{GoodReadings, SoundFor};
ghost use Rattle.named.specs.Named.{GoodRow};
ghost use Rattle.search.specs.RunnerUp.{runner_up_outcome_of, runner_up_outcome_by};
ghost use Rattle.shortened.specs.Outcome.{left_of};
ghost use Rattle.shortened_search.specs.Outcome.{searching_over, searching_shortened};

use code::Code;
use search::WithRunnerUp;

// Writes the information bits and the word of least penalty in the smaller set, if no other
// word of it has that penalty and the walk needs no more visits than allowed.
pub fn search_within_shortened(
    r: u32,
    m: u32,
    allowed: u32,
    named: &[u8],
    readings: &[i16],
    bits: &mut [u8],
    word: &mut [u8],
) -> WithRunnerUp
    ensures { runner_up_outcome_of result bits.new word.new
        ≡ searching_shortened r m allowed named.now readings.now
        bits.old word.old }
{
    match named::admit_row(r, m, named) {
        Err(why) => WithRunnerUp::refused(why),
        Ok(code) => search_left(code, allowed, named, readings, bits, word),
    }
}

// The same, with the default allowance.
pub fn search_shortened(
    r: u32,
    m: u32,
    named: &[u8],
    readings: &[i16],
    bits: &mut [u8],
    word: &mut [u8],
) -> WithRunnerUp
    ensures { runner_up_outcome_of result bits.new word.new
        ≡ searching_shortened r m default_allowance named.now readings.now
        bits.old word.old }
{
    search_within_shortened(r, m, Code::DEFAULT_ALLOWANCE, named, readings, bits, word)
}

// The tests 2 to 4, and the search.
fn search_left(
    code: Code,
    allowed: u32,
    named: &[u8],
    readings: &[i16],
    bits: &mut [u8],
    word: &mut [u8],
) -> WithRunnerUp
    requires { Sound code × GoodRow named.now (kinds code.r code.m) }
    ensures { runner_up_outcome_of result bits.new word.new
        ≡ searching_over (left_of named.now code) code allowed readings.now
        bits.old word.old }
{
    let left = named::count_left(code, named);
    match code::admit_for(code, left, readings, bits.len(), word.len()) {
        Err(why) => WithRunnerUp::refused(why),
        Ok(_) => search_sound(code, allowed, named, readings, bits, word),
    }
}

fn search_sound(
    code: Code,
    allowed: u32,
    named: &[u8],
    readings: &[i16],
    bits: &mut [u8],
    word: &mut [u8],
) -> WithRunnerUp
    requires { GoodRow named.now (kinds code.r code.m)
        × SoundFor code (sum (left_of named.now code)) (length bits.old) (length word.old)
        (GoodReadings code readings.now) }
    ensures { runner_up_outcome_of result bits.new word.new
        ≡ runner_up_outcome_by code.m (left_of named.now code) readings.now
        allowed bits.old word.old }
{
    let mut kinds = [0u8; 256];
    let mut own = [0i16; 256];
    let n = code.length();
    named::put_left(code, named, &mut kinds[0..n]);
    bit_rows::copy(readings, &mut own[0..n]);
    let mut runner_up = [0u8; 256];
    let result = search::search_kinds(&own, &kinds, code.m, allowed, bits, word, &mut runner_up);
    WithRunnerUp { result, runner_up }
}
