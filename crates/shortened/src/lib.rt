// Encoder, inverse and quick reading on a shortened set (docs/RULES.md, §15). A row names
// information indices that are to be 0 as well, 1 where named.
#![tactic(auto)]

ghost use Rattle.std.specs.Prelude.{◌≡◌};
ghost use Rattle.encode.specs.Outcome as encoder;
ghost use Rattle.quick.specs.Outcome as reader;
ghost use Rattle.shortened.specs.Outcome.{encoding_shortened, inverting_shortened, quick_shortened};

use code::Refusal;

// Writes the word of the information bits that are left into the lent buffer.
pub fn encode_shortened(
    r: u32,
    m: u32,
    named: &[u8],
    bits: &[u8],
    word: &mut [u8],
) -> Result<(), Refusal>
    ensures { encoder.outcome_of result word.new
        ≡ encoding_shortened r m named.now bits.now word.old }
{
    let code = named::admit_row(r, m, named)?;
    let n = code.length();
    encode::admit_bits(bits, named::count_left(code, named), word.len(), n)?;
    let mut kinds = [0u8; 256];
    named::put_left(code, named, &mut kinds[0..n]);
    encode::put_by_kinds(&kinds[0..n], bits, word, code.m as usize);
    Ok(())
}

// Writes the information bits of the word into the lent buffer: a named index is frozen.
pub fn inverse_shortened(
    r: u32,
    m: u32,
    named: &[u8],
    word: &[u8],
    bits: &mut [u8],
) -> Result<(), Refusal>
    ensures { encoder.outcome_of result bits.new
        ≡ inverting_shortened r m named.now word.now bits.old }
{
    let code = named::admit_row(r, m, named)?;
    let n = code.length();
    // before the indices that are left are counted, over the whole row
    if word.len() != n {
        return Err(Refusal::InputLength);
    }
    encode::admit_bits(word, n, bits.len(), named::count_left(code, named))?;
    let mut kinds = [0u8; 256];
    let mut row = [0u8; 256];
    named::put_left(code, named, &mut kinds[0..n]);
    encode::take_by_kinds(&kinds[0..n], &mut row[0..n], word, bits, code.m as usize)
}

// Reads the readings by halves: writes the information bits and the word, and gives the penalty.
pub fn quick_shortened(
    r: u32,
    m: u32,
    named: &[u8],
    readings: &[i16],
    bits: &mut [u8],
    word: &mut [u8],
) -> Result<u32, Refusal>
    ensures { reader.outcome_of result bits.new word.new
        ≡ quick_shortened r m named.now readings.now
        bits.old word.old }
{
    let code = named::admit_row(r, m, named)?;
    let left = named::count_left(code, named);
    code::admit_for(code, left, readings, bits.len(), word.len())?;
    let mut kinds = [0u8; 256];
    let n = code.length();
    named::put_left(code, named, &mut kinds[0..n]);
    Ok(quick::read_kinds(&kinds[0..n], readings, bits, word, code.m as usize))
}
