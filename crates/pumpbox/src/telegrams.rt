// The C exports of the tilt telegram (docs/RULES.md, §11).
ghost use Rattle.std.specs.Prelude.{◌≡◌, [], ◌∷◌};
ghost use Rattle.code.specs.Sound.{default_allowance};
ghost use Rattle.telegram.specs.Outcome as Tilt;
ghost use Rattle.answers.specs.Reported.{reported};
ghost use Rattle.answers.specs.Guarded.{shown_written, shown_read};

use answers::{put_heard, put_written};

#[unsafe(no_mangle)]
pub extern "C" fn cinorbis_telegram_write(
    cylinder: u32,
    direction: u32,
    tilt: u32,
    word: &mut [u8],
    out: &mut [u64; 4],
) -> u32
    ensures { reported result out.new (word.new ∷ [])
        ≡ shown_written (Tilt.writing_telegram cylinder direction tilt word.old) }
{
    let answer = telegram::write(cylinder, direction, tilt, word);
    put_written(answer, out)
}

#[unsafe(no_mangle)]
pub extern "C" fn cinorbis_telegram_read_within(
    allowed: u32,
    readings: &[i16],
    telegram: &mut [u64; 3],
    out: &mut [u64; 4],
) -> u32
    ensures { reported result out.new (telegram.new ∷ [])
        ≡ shown_read (Tilt.reading_telegram allowed readings.now) }
{
    let answer = telegram::read_within(allowed, readings);
    put_heard(answer, telegram, out)
}

#[unsafe(no_mangle)]
pub extern "C" fn cinorbis_telegram_read(
    readings: &[i16],
    telegram: &mut [u64; 3],
    out: &mut [u64; 4],
) -> u32
    ensures { reported result out.new (telegram.new ∷ [])
        ≡ shown_read (Tilt.reading_telegram default_allowance readings.now) }
{
    let answer = telegram::read(readings);
    put_heard(answer, telegram, out)
}

#[unsafe(no_mangle)]
pub extern "C" fn cinorbis_telegram_of_bits(
    bits: &[u8],
    telegram: &mut [u64; 3],
    out: &mut [u64; 4],
) -> u32
    ensures { reported result
        out.new (telegram.new ∷ []) ≡ shown_read (Tilt.reading_bits bits.now) }
{
    let answer = telegram::of_bits(bits);
    put_heard(answer, telegram, out)
}
