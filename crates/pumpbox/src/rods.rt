// The C exports of rod positions (docs/RULES.md, §18).
ghost use Rattle.std.specs.Prelude.{◌≡◌, [], ◌∷◌};
ghost use Rattle.rod.specs.Outcome.{writing_rod, reading_rod};
ghost use Rattle.answers.specs.Reported.{reported};
ghost use Rattle.answers.specs.Guarded.{shown_written, shown_rod};

use answers::{put_rod, put_written};

#[unsafe(no_mangle)]
pub extern "C" fn cinorbis_rod_write(
    m: u32,
    position: u32,
    word: &mut [u8],
    out: &mut [u64; 4],
) -> u32
    ensures { reported result out.new (word.new ∷ [])
        ≡ shown_written (writing_rod m position word.old) }
{
    let answer = rod::write(m, position, word);
    put_written(answer, out)
}

#[unsafe(no_mangle)]
pub extern "C" fn cinorbis_rod_read(
    m: u32,
    readings: &[i16],
    position: &mut [u64; 1],
    out: &mut [u64; 4],
) -> u32
    ensures { reported result out.new (position.new ∷ [])
        ≡ shown_rod (reading_rod m readings.now) }
{
    let answer = rod::read(m, readings);
    put_rod(answer, position, out)
}
