// The early answer (docs/RULES.md, §10): the quick reading's word if it is surely the best, else
// the search's.
#![tactic(auto)]

ghost use Rattle.std.specs.Prelude.{◌≡◌, ◌^◌, ◌≤◌, ◌<◌, nat_abs, length};
ghost use Rattle.decoding.specs.Readings.{loss};
ghost use Rattle.sure.specs.Sure.{largest, doubt_at, doubt};
ghost use Rattle.sure.specs.Test.{is_sure};
ghost use Rattle.code.specs.Sound.{default_allowance};
ghost use Rattle.code.specs.SoundInput.{SoundReadings};
ghost use Rattle.early.specs.Outcome.{outcome_of, early_by, answering};
ghost use Rattle.early.specs.OutcomeLaws.{penalty_only};
ghost use Rattle.early.specs.Work.{Testable, Summable};

use code::{Code, Refusal};
use search::Found;

// Writes the information bits and the word of least penalty into the lent buffers: without a walk
// if the quick reading is surely right, else if no other word has that penalty and the walk
// needs no more visits than allowed. Gives the penalty.
pub fn early_within(
    r: u32,
    m: u32,
    allowed: u32,
    readings: &[i16],
    bits: &mut [u8],
    word: &mut [u8],
) -> Result<u32, Refusal>
    ensures { outcome_of result bits.new word.new
        ≡ answering r m allowed readings.now
        bits.old word.old }
{
    let code = code::admit(r, m, readings, bits.len(), word.len())?;
    answer_sound(code, allowed, readings, bits, word)
}

// The same, with the default allowance.
pub fn early(
    r: u32,
    m: u32,
    readings: &[i16],
    bits: &mut [u8],
    word: &mut [u8],
) -> Result<u32, Refusal>
    ensures { outcome_of result bits.new word.new
        ≡ answering r m default_allowance readings.now
        bits.old word.old }
{
    early_within(r, m, Code::DEFAULT_ALLOWANCE, readings, bits, word)
}

// The quick reading gets arrays of its own, so that the buffers keep their contents if the test
// does not pass and the search refuses.
fn answer_sound(
    code: Code,
    allowed: u32,
    readings: &[i16],
    bits: &mut [u8],
    word: &mut [u8],
) -> Result<u32, Refusal>
    requires { SoundReadings code readings.now (length bits.old) (length word.old) }
    ensures { outcome_of result bits.new word.new
        ≡ early_by code allowed readings.now
        bits.old word.old }
{
    let mut own_bits = [0u8; 256];
    let mut own_word = [0u8; 256];
    let k = bits.len();
    let n = word.len();
    let read_bits = &mut own_bits[0..k];
    let read_word = &mut own_word[0..n];
    test_first(code, allowed, readings, read_bits, read_word, bits, word)
}

// The quick reading and its test, and the search if the test does not pass.
fn test_first(
    code: Code,
    allowed: u32,
    readings: &[i16],
    read_bits: &mut [u8],
    read_word: &mut [u8],
    bits: &mut [u8],
    word: &mut [u8],
) -> Result<u32, Refusal>
    requires { SoundReadings code readings.now (length bits.old) (length word.old)
        × (length read_bits.old ≡ length bits.old)
        × (length read_word.old ≡ length word.old) }
    ensures { outcome_of result bits.new word.new
        ≡ early_by code allowed readings.now
        bits.old word.old }
{
    let penalty = quick::take_reading(code, readings, read_bits, read_word);
    if surely_right(code, readings, read_word) {
        bit_rows::copy(read_bits, bits);
        bit_rows::copy(read_word, word);
        return Ok(penalty);
    }
    let answer = search::search_sound(code, allowed, readings, bits, word);
    let result = answer.result;
    penalty_only(result)
}

// Only word, bits and penalty of a search are given.
fn penalty_only(answer: Result<Found, Refusal>) -> Result<u32, Refusal>
    ensures { result ≡ penalty_only answer }
{
    let found = answer?;
    Ok(found.penalty)
}

// Whether the sum along the word is below M times the code's distance, with the largest size as M.
fn surely_right(code: Code, readings: &[i16], word: &[u8]) -> bool
    requires { Testable code readings.now word.now }
    ensures { result ≡ is_sure code.r code.m readings.now word.now }
{
    let largest = largest_size(readings);
    doubt(largest, readings, word) < largest * (1u32 << (code.m - code.r))
}

// What the reading loses by the bit.
fn against(reading: i16, bit: u8) -> u32
    ensures { result ≡ loss reading bit }
{
    rows::loss(i32::from(reading), bit)
}

fn largest_size(readings: &[i16]) -> u32
    ensures { result ≡ largest readings.now }
{
    let mut most = 0u32;
    for reading in readings {
        most = most.max(u32::from(reading.unsigned_abs()));
    }
    most
}

// M minus the reading where the bit is 0, M plus the reading where it is 1.
fn doubt_at(largest: u32, reading: i16, bit: u8) -> u32
    requires { (nat_abs reading ≤ largest) × (largest < 2 ^ 31) }
    ensures { result ≡ doubt_at largest reading bit }
{
    if bit == 0 {
        return largest + against(reading, 0) - against(reading, 1);
    }
    largest + against(reading, 1) - against(reading, 0)
}

// The sum of these along the word.
fn doubt(largest: u32, readings: &[i16], word: &[u8]) -> u32
    requires { Summable largest readings.now word.now }
    ensures { result ≡ doubt largest readings.now word.now }
{
    let mut sum = 0u32;
    for (j, bit) in word.iter().enumerate() {
        sum += doubt_at(largest, readings[j], *bit);
    }
    sum
}
