// The C export of first-order words (docs/RULES.md, §13).
ghost use Rattle.std.specs.Prelude.{◌≡◌, [], ◌∷◌};
ghost use Rattle.first_order.specs.Outcome.{first_ordering};
ghost use Rattle.answers.specs.Reported.{reported, shown_search};

use answers::put_searched;

#[unsafe(no_mangle)]
pub extern "C" fn cinorbis_first_order(
    r: u32,
    m: u32,
    readings: &[i16],
    bits: &mut [u8],
    word: &mut [u8],
    out: &mut [u64; 4],
) -> u32
    ensures { reported result out.new
        (bits.new ∷ word.new ∷ [])
        ≡ shown_search (first_ordering r m readings.now
        bits.old word.old) }
{
    let answer = first_order::first_order(r, m, readings, bits, word);
    put_searched(answer, out)
}
