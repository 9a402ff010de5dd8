// The C exports, one per public call: include/cinorbis.h says what each means.
// A call returns 0 or its refusal's number.
#![tactic(auto)]

mod early_answers;
mod first;
mod floats;
mod indexing;
mod lengths;
mod reordering;
mod rods;
mod shortening;
mod telegrams;
mod unpacking;
mod writing;

ghost use Rattle.std.specs.Prelude.{◌≡◌, [], ◌∷◌};
ghost use Rattle.encode.specs.Outcome.{encoding, inverting};
ghost use Rattle.quick.specs.Outcome.{quick_reading};
ghost use Rattle.record.specs.Reader.{header_of, part_by};
ghost use Rattle.record.specs.Searching.{searching_record_with_runner_up};
ghost use Rattle.search.specs.RunnerUp.{searching_with_runner_up};
ghost use Rattle.code.specs.Sound.{default_allowance};
ghost use Rattle.answers.specs.Reported.{reported, shown, shown_quick, shown_with_runner_up};
ghost use Rattle.answers.specs.Reported.{shown_part};

use answers::{put_completed, put_header, put_read, put_with_runner_up};

#[unsafe(no_mangle)]
pub extern "C" fn cinorbis_encode(
    r: u32,
    m: u32,
    bits: &[u8],
    word: &mut [u8],
    out: &mut [u64; 4],
) -> u32
    ensures { reported result out.new (word.new ∷ [])
        ≡ shown (encoding r m bits.now word.old) }
{
    let answer = encode::encode(r, m, bits, word);
    put_completed(answer, out)
}

#[unsafe(no_mangle)]
pub extern "C" fn cinorbis_inverse(
    r: u32,
    m: u32,
    word: &[u8],
    bits: &mut [u8],
    out: &mut [u64; 4],
) -> u32
    ensures { reported result out.new (bits.new ∷ [])
        ≡ shown (inverting r m word.now bits.old) }
{
    let answer = encode::inverse(r, m, word, bits);
    put_completed(answer, out)
}

#[unsafe(no_mangle)]
pub extern "C" fn cinorbis_quick(
    r: u32,
    m: u32,
    readings: &[i16],
    bits: &mut [u8],
    word: &mut [u8],
    out: &mut [u64; 4],
) -> u32
    ensures { reported result out.new
        (bits.new ∷ word.new ∷ [])
        ≡ shown_quick (quick_reading r m readings.now
        bits.old word.old) }
{
    let answer = quick::quick(r, m, readings, bits, word);
    put_read(answer, out)
}

#[unsafe(no_mangle)]
pub extern "C" fn cinorbis_search_within(
    r: u32,
    m: u32,
    allowed: u32,
    readings: &[i16],
    bits: &mut [u8],
    word: &mut [u8],
    runner_up: &mut [u8; 256],
    out: &mut [u64; 4],
) -> u32
    ensures { reported result out.new
        (bits.new ∷ word.new ∷ runner_up.new ∷ [])
        ≡ shown_with_runner_up (searching_with_runner_up r m allowed readings.now
        bits.old word.old) }
{
    let answer = search::search_within(r, m, allowed, readings, bits, word);
    put_with_runner_up(answer, runner_up, out)
}

#[unsafe(no_mangle)]
pub extern "C" fn cinorbis_search(
    r: u32,
    m: u32,
    readings: &[i16],
    bits: &mut [u8],
    word: &mut [u8],
    runner_up: &mut [u8; 256],
    out: &mut [u64; 4],
) -> u32
    ensures { reported result out.new
        (bits.new ∷ word.new ∷ runner_up.new ∷ [])
        ≡ shown_with_runner_up (searching_with_runner_up r m default_allowance readings.now
        bits.old word.old) }
{
    let answer = search::search(r, m, readings, bits, word);
    put_with_runner_up(answer, runner_up, out)
}

#[unsafe(no_mangle)]
pub extern "C" fn cinorbis_search_record(
    allowed: u32,
    bytes: &[u8],
    bits: &mut [u8],
    word: &mut [u8],
    runner_up: &mut [u8; 256],
    out: &mut [u64; 4],
) -> u32
    ensures { reported result out.new
        (bits.new ∷ word.new ∷ runner_up.new ∷ [])
        ≡ shown_with_runner_up (searching_record_with_runner_up allowed bytes.now
        bits.old word.old) }
{
    let answer = record::search_record(bytes, allowed, bits, word);
    put_with_runner_up(answer, runner_up, out)
}

#[unsafe(no_mangle)]
pub extern "C" fn cinorbis_record(bytes: &[u8], out: &mut [u64; 4]) -> u32
    ensures { reported result out.new []
        ≡ shown_part (header_of bytes.now)
        (part_by (header_of bytes.now) bytes.now) }
{
    let header = record::header_of(bytes);
    let part = record::packed(bytes);
    put_header(header, part.len(), out)
}
