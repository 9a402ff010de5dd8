// The C export that writes a record into a capture (docs/RULES.md, §7).
ghost use Rattle.std.specs.Prelude.{◌≡◌, [], ◌∷◌};
ghost use Rattle.record.specs.Writing.{writing};
ghost use Rattle.answers.specs.Reported.{reported};
ghost use Rattle.answers.specs.Written.{shown_wrote};

use answers::put_wrote;

#[unsafe(no_mangle)]
pub extern "C" fn cinorbis_write_record(
    r: u32,
    m: u32,
    at: usize,
    readings: &[i16],
    buffer: &mut [u8],
    out: &mut [u64; 2],
) -> u32
    ensures { reported result out.new (buffer.new ∷ [])
        ≡ shown_wrote (writing r m readings.now buffer.old at) }
{
    let answer = record::write(r, m, readings, buffer, at);
    put_wrote(answer, out)
}
