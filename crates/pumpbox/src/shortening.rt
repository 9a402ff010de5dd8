// The C exports of the calls on a shortened set (docs/RULES.md, §15).
ghost use Rattle.std.specs.Prelude.{◌≡◌, [], ◌∷◌};
ghost use Rattle.code.specs.Sound.{default_allowance};
ghost use Rattle.shortened.specs.Outcome.{encoding_shortened, inverting_shortened, quick_shortened};
ghost use Rattle.shortened_search.specs.Outcome.{searching_shortened};
ghost use Rattle.answers.specs.Reported.{reported, shown, shown_quick, shown_with_runner_up};

use answers::{put_completed, put_read, put_with_runner_up};

#[unsafe(no_mangle)]
pub extern "C" fn cinorbis_encode_shortened(
    r: u32,
    m: u32,
    named: &[u8],
    bits: &[u8],
    word: &mut [u8],
    out: &mut [u64; 4],
) -> u32
    ensures { reported result out.new (word.new ∷ [])
        ≡ shown (encoding_shortened r m named.now bits.now
        word.old) }
{
    let answer = shortened::encode_shortened(r, m, named, bits, word);
    put_completed(answer, out)
}

#[unsafe(no_mangle)]
pub extern "C" fn cinorbis_inverse_shortened(
    r: u32,
    m: u32,
    named: &[u8],
    word: &[u8],
    bits: &mut [u8],
    out: &mut [u64; 4],
) -> u32
    ensures { reported result out.new (bits.new ∷ [])
        ≡ shown (inverting_shortened r m named.now word.now
        bits.old) }
{
    let answer = shortened::inverse_shortened(r, m, named, word, bits);
    put_completed(answer, out)
}

#[unsafe(no_mangle)]
pub extern "C" fn cinorbis_quick_shortened(
    r: u32,
    m: u32,
    named: &[u8],
    readings: &[i16],
    bits: &mut [u8],
    word: &mut [u8],
    out: &mut [u64; 4],
) -> u32
    ensures { reported result out.new
        (bits.new ∷ word.new ∷ [])
        ≡ shown_quick (quick_shortened r m named.now readings.now
        bits.old word.old) }
{
    let answer = shortened::quick_shortened(r, m, named, readings, bits, word);
    put_read(answer, out)
}

#[unsafe(no_mangle)]
pub extern "C" fn cinorbis_search_shortened(
    r: u32,
    m: u32,
    named: &[u8],
    readings: &[i16],
    bits: &mut [u8],
    word: &mut [u8],
    runner_up: &mut [u8; 256],
    out: &mut [u64; 4],
) -> u32
    ensures { reported result out.new
        (bits.new ∷ word.new ∷ runner_up.new ∷ [])
        ≡ shown_with_runner_up (searching_shortened r m default_allowance named.now
        readings.now bits.old word.old) }
{
    let answer = shortened_search::search_shortened(r, m, named, readings, bits, word);
    put_with_runner_up(answer, runner_up, out)
}

#[unsafe(no_mangle)]
pub extern "C" fn cinorbis_search_within_shortened(
    r: u32,
    m: u32,
    allowed: u32,
    named: &[u8],
    readings: &[i16],
    bits: &mut [u8],
    word: &mut [u8],
    runner_up: &mut [u8; 256],
    out: &mut [u64; 4],
) -> u32
    ensures { reported result out.new
        (bits.new ∷ word.new ∷ runner_up.new ∷ [])
        ≡ shown_with_runner_up (searching_shortened r m allowed named.now
        readings.now bits.old word.old) }
{
    let answer = shortened_search::search_within_shortened(
        r, m, allowed, named, readings, bits, word,
    );
    put_with_runner_up(answer, runner_up, out)
}
