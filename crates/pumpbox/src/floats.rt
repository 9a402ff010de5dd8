// The C exports of the float board (docs/RULES.md, §16).
ghost use Rattle.std.specs.Prelude.{◌≡◌, [], ◌∷◌};
ghost use Rattle.code.specs.Sound.{default_allowance};
ghost use Rattle.search.specs.RunnerUp.{searching_with_runner_up};
ghost use Rattle.float_numbers.specs.Whole.{wholes};
ghost use Rattle.answers.specs.Reported.{reported, shown_with_runner_up};

use answers::put_with_runner_up;

#[unsafe(no_mangle)]
pub extern "C" fn cinorbis_search_float_within(
    r: u32,
    m: u32,
    allowed: u32,
    readings: &[f32],
    bits: &mut [u8],
    word: &mut [u8],
    runner_up: &mut [u8; 256],
    out: &mut [u64; 4],
) -> u32
    ensures { reported result out.new
        (bits.new ∷ word.new ∷ runner_up.new ∷ [])
        ≡ shown_with_runner_up (searching_with_runner_up r m allowed
        (wholes readings.now) bits.old word.old) }
{
    let answer = float_search::search_float_within(r, m, allowed, readings, bits, word);
    put_with_runner_up(answer, runner_up, out)
}

#[unsafe(no_mangle)]
pub extern "C" fn cinorbis_search_float(
    r: u32,
    m: u32,
    readings: &[f32],
    bits: &mut [u8],
    word: &mut [u8],
    runner_up: &mut [u8; 256],
    out: &mut [u64; 4],
) -> u32
    ensures { reported result out.new
        (bits.new ∷ word.new ∷ runner_up.new ∷ [])
        ≡ shown_with_runner_up (searching_with_runner_up r m default_allowance
        (wholes readings.now) bits.old word.old) }
{
    let answer = float_search::search_float(r, m, readings, bits, word);
    put_with_runner_up(answer, runner_up, out)
}
