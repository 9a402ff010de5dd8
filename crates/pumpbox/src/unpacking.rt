// The C export that unpacks a packed part (docs/RULES.md, §7).
ghost use Rattle.std.specs.Prelude.{◌≡◌};
ghost use Rattle.packing.specs.Unpacking.{unpacking};
ghost use Rattle.answers.specs.Reported.{reported};
ghost use Rattle.answers.specs.Unpacked.{shown_unpacked};

use answers::put_completed;

#[unsafe(no_mangle)]
pub extern "C" fn cinorbis_unpack(part: &[u8], readings: &mut [i16], out: &mut [u64; 4]) -> u32
    ensures { reported result out.new readings.new
        ≡ shown_unpacked (unpacking part.now readings.old) }
{
    let answer = packing::unpack(part, readings);
    put_completed(answer, out)
}
