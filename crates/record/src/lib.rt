// Packed records (docs/RULES.md, §7): the reader, the writer, and the search of a record.
#![tactic(auto)]

ghost use Rattle.std.specs.Prelude.{◌≡◌, suc, ◌<◌, ◌≤◌, length};
ghost use Rattle.decoding.specs.Readings.{Within};
ghost use Rattle.code.specs.Sound.{Sound, largest_record_reading};
ghost use Rattle.packing.specs.Layout.{record_of, part_length};
ghost use Rattle.record.specs.Reader.{code_of, length_by, sized_by, headed_by, header_of};
ghost use Rattle.record.specs.Reader.{outcome_of, part_by};
ghost use Rattle.record.specs.Writing as Writing;
ghost use Rattle.record.specs.Writing.{writable, writing};
ghost use Rattle.search.specs.RunnerUp.{runner_up_outcome_of};
ghost use Rattle.record.specs.Searching.{searching_with_runner_up_by};
ghost use Rattle.record.specs.Searching.{searching_record_with_runner_up};

use code::{Code, Refusal};
use search::WithRunnerUp;

fn code_of(first: u8) -> Result<Code, Refusal>
    ensures { result ≡ code_of first }
{
    let first = u32::from(first);
    Code::new(first % 16, first / 16)
}

// How many bytes a record has, by its first byte; 0 if that byte is refused.
pub fn record_length(first: u8) -> usize
    ensures { result ≡ length_by (code_of first) }
{
    try_record_length(first).unwrap_or(0)
}

// The same, or why that byte is refused.
pub fn try_record_length(first: u8) -> Result<usize, Refusal>
    ensures { result ≡ sized_by (code_of first) }
{
    let code = code_of(first)?;
    Ok(1 + packing::part_length(code))
}

// Whether all bytes of the record are there, and its pad bits are 0.
fn framed(s: &[u8], code: Code) -> Result<Code, Refusal>
    requires { Sound code × (0 < length s.now) }
    ensures { result ≡ headed_by (Ok code) s.now }
{
    if s.len() - 1 < packing::part_length(code) {
        return Err(Refusal::Torn);
    }
    if code.m == 0 {
        if s[2] % 16 != 0 {
            return Err(Refusal::Pad);
        }
    }
    Ok(code)
}

// The refusals 1, 8 and 9.
fn frame(s: &[u8]) -> Result<Code, Refusal>
    ensures { result ≡ header_of s.now }
{
    if s.len() == 0 {
        return Err(Refusal::Torn);
    }
    let code = code_of(s[0])?;
    framed(s, code)
}

// The code of the record that the bytes begin with, or the refusal.
pub fn header_of(s: &[u8]) -> Result<Code, Refusal>
    ensures { outcome_of result ≡ outcome_of (header_of s.now) }
{
    frame(s)
}

// The part of the bytes that holds the packed values: all of the record's bytes after its first.
// Empty on refusal.
pub fn packed(s: &[u8]) -> &[u8]
    ensures { result.now ≡ part_by (header_of s.now) s.now }
{
    match frame(s) {
        Ok(code) => {
            let end = 1 + packing::part_length(code);
            &s[1..end]
        }
        Err(_) => &s[..0],
    }
}

// Searches the record that the bytes begin with. The refusals are 1, 8, 9, 3, 6, 7, in this order.
pub fn search_record(s: &[u8], allowed: u32, bits: &mut [u8], word: &mut [u8]) -> WithRunnerUp
    ensures { runner_up_outcome_of result bits.new word.new
        ≡ searching_record_with_runner_up allowed s.now
        bits.old word.old }
{
    match frame(s) {
        Ok(code) => search_framed(s, code, allowed, bits, word),
        Err(why) => WithRunnerUp::refused(why),
    }
}

// The same for a record whose header is known: its code is sound, and it is complete.
pub fn search_framed(
    s: &[u8],
    code: Code,
    allowed: u32,
    bits: &mut [u8],
    word: &mut [u8],
) -> WithRunnerUp
    requires { Sound code × (suc (part_length code.m) ≤ length s.now) }
    ensures { runner_up_outcome_of result bits.new word.new
        ≡ searching_with_runner_up_by (Ok code) allowed s.now
        bits.old word.old }
{
    let mut readings = [0i16; 256];
    let n = code.length();
    let end = 1 + packing::part_length(code);
    packing::put_readings(&s[1..end], &mut readings[0..n]);
    search::search_within(code.r, code.m, allowed, &readings[0..n], bits, word)
}

// The tests of the writer: 1, 2, 4, then 3, for a buffer of this many bytes. No sum here wraps.
pub fn writable(
    r: u32,
    m: u32,
    readings: &[i16],
    bytes: usize,
    place: usize,
) -> Result<Code, Refusal>
    ensures { result ≡ writable r m readings.now bytes place }
{
    let code = Code::new(r, m)?;
    if readings.len() != code.length() {
        return Err(Refusal::InputLength);
    }
    code::test_record_readings(readings)?;
    if bytes < place {
        return Err(Refusal::OutputLength);
    }
    if bytes - place < 1 + packing::part_length(code) {
        return Err(Refusal::OutputLength);
    }
    Ok(code)
}

// The record's first byte, and its packed part.
fn put_record(code: Code, readings: &[i16], bytes: &mut [u8])
    requires { Sound code × Within largest_record_reading readings.now
        × (length bytes.old ≡ length (record_of code.r code.m readings.now)) }
    ensures { bytes.new ≡ record_of code.r code.m readings.now }
{
    let end = bytes.len();
    bytes[0] = (16 * code.m + code.r) as u8;
    packing::put_packed(readings, &mut bytes[1..end]);
}

// Writes the record of the readings into the lent buffer, from the place on, and gives the place
// after it. All other bytes stay.
pub fn write(
    r: u32,
    m: u32,
    readings: &[i16],
    buffer: &mut [u8],
    place: usize,
) -> Result<usize, Refusal>
    ensures { Writing.outcome_of result buffer.new
        ≡ writing r m readings.now buffer.old place }
{
    let code = writable(r, m, readings, buffer.len(), place)?;
    let end = place + (1 + packing::part_length(code));
    put_record(code, readings, &mut buffer[place..end]);
    Ok(end)
}
