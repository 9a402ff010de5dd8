// The C exports of the early answer (docs/RULES.md, §10).
ghost use Rattle.std.specs.Prelude.{◌≡◌, [], ◌∷◌};
ghost use Rattle.code.specs.Sound.{default_allowance};
ghost use Rattle.early.specs.Outcome.{answering};
ghost use Rattle.answers.specs.Reported.{reported, shown_search};

use answers::put_answered;

#[unsafe(no_mangle)]
pub extern "C" fn cinorbis_early_within(
    r: u32,
    m: u32,
    allowed: u32,
    readings: &[i16],
    bits: &mut [u8],
    word: &mut [u8],
    out: &mut [u64; 4],
) -> u32
    ensures { reported result out.new
        (bits.new ∷ word.new ∷ [])
        ≡ shown_search (answering r m allowed readings.now
        bits.old word.old) }
{
    let answer = early::early_within(r, m, allowed, readings, bits, word);
    put_answered(answer, out)
}

#[unsafe(no_mangle)]
pub extern "C" fn cinorbis_early(
    r: u32,
    m: u32,
    readings: &[i16],
    bits: &mut [u8],
    word: &mut [u8],
    out: &mut [u64; 4],
) -> u32
    ensures { reported result out.new
        (bits.new ∷ word.new ∷ [])
        ≡ shown_search (answering r m default_allowance readings.now
        bits.old word.old) }
{
    let answer = early::early(r, m, readings, bits, word);
    put_answered(answer, out)
}
