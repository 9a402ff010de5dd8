// Encoding (docs/RULES.md, §1): from information bits to the word, and back.
#![tactic(auto)]

ghost use Rattle.std.specs.Prelude.{◌≡◌, ◌^◌, length};
ghost use Rattle.numbers.specs.Sums.{sum};
ghost use Rattle.words.specs.Bits.{Bits};
ghost use Rattle.words.specs.Kinds.{kinds, encoded};
ghost use Rattle.words.specs.Inverse.{taken_back};
ghost use Rattle.code.specs.SoundInput.{SoundInput};
ghost use Rattle.encode.specs.Outcome.{outcome_of, bits_admitted, encoding, inverting, taking_back};
ghost use Rattle.encode.specs.Work.{ByKinds, taking_row};

use code::{Code, Refusal};

// Writes the word of the information bits into the lent buffer.
pub fn encode(r: u32, m: u32, bits: &[u8], word: &mut [u8]) -> Result<(), Refusal>
    ensures { outcome_of result word.new
        ≡ encoding r m bits.now word.old }
{
    let code = Code::new(r, m)?;
    admit_bits(bits, code.dimension(), word.len(), code.length())?;
    put_word(code, bits, word);
    Ok(())
}

// Writes the information bits of the word into the lent buffer.
pub fn inverse(r: u32, m: u32, word: &[u8], bits: &mut [u8]) -> Result<(), Refusal>
    ensures { outcome_of result bits.new
        ≡ inverting r m word.now bits.old }
{
    let code = Code::new(r, m)?;
    let n = code.length();
    // before the dimension, since a table is made for it
    if word.len() != n {
        return Err(Refusal::InputLength);
    }
    admit_bits(word, n, bits.len(), code.dimension())?;
    take_back(code, word, bits)
}

// The tests 2 to 4, for an input of bits that is to be so long, and a lent output of this length
// that is to have so much room.
pub fn admit_bits(input: &[u8], long: usize, output: usize, room: usize) -> Result<(), Refusal>
    ensures { result ≡ bits_admitted input.now long output room }
{
    if input.len() != long {
        return Err(Refusal::InputLength);
    }
    if output != room {
        return Err(Refusal::OutputLength);
    }
    code::test_bits(input)
}

// The row u goes into the buffer, whatever it held, and is transformed there. The few kinds of a
// short row are written out for it.
fn put_word(code: Code, bits: &[u8], word: &mut [u8])
    requires { SoundInput code (length bits.now) (length word.old) (Bits bits.now) }
    ensures { word.new
        ≡ encoded code.m (kinds code.r code.m) bits.now }
{
    if 3 <= code.m {
        bit_rows::fill_code(code.r, code.m, bits, word);
        bit_rows::transform(word, code.m as usize);
        return;
    }
    let mut kinds = [0u8; 8];
    let n = code.length();
    code::put_kinds(code, &mut kinds[0..n]);
    put_by_kinds(&kinds[0..n], bits, word, code.m as usize);
}

fn take_back(code: Code, word: &[u8], bits: &mut [u8]) -> Result<(), Refusal>
    requires { SoundInput code (length bits.old) (length word.now) (Bits word.now) }
    ensures { outcome_of result bits.new
        ≡ taking_back (taken_back code.m (kinds code.r code.m) word.now)
        bits.old }
{
    let mut kinds = [0u8; 256];
    let mut row = [0u8; 256];
    let n = code.length();
    code::put_kinds(code, &mut kinds[0..n]);
    take_by_kinds(&kinds[0..n], &mut row[0..n], word, bits, code.m as usize)
}

// ---- over any row of kinds, for the calls on a shortened set too
// The bits go into the word by their kinds, and are transformed there.
pub fn put_by_kinds(kinds: &[u8], bits: &[u8], word: &mut [u8], m: usize)
    requires { ByKinds m kinds.now bits.now word.old × Bits bits.now }
    ensures { word.new ≡ encoded m kinds.now bits.now }
{
    bit_rows::fill(kinds, bits, word);
    bit_rows::transform(word, m);
}

// The bits are taken from the word's row, which is made in lent scratch.
pub fn take_by_kinds(
    kinds: &[u8],
    row: &mut [u8],
    word: &[u8],
    bits: &mut [u8],
    m: usize,
) -> Result<(), Refusal>
    requires { ByKinds m kinds.now bits.old word.now × Bits word.now
        × (length row.old ≡ 2 ^ m) }
    ensures { outcome_of result bits.new
        ≡ taking_back (taken_back m kinds.now word.now) bits.old }
{
    bit_rows::put_row(word, row, m);
    take_row(kinds, row, bits)
}

// Nothing is written before every frozen index has been found to be 0.
pub fn take_row(kinds: &[u8], row: &[u8], bits: &mut [u8]) -> Result<(), Refusal>
    requires { (length row.now ≡ length kinds.now)
        × (length bits.old ≡ sum kinds.now) × Bits kinds.now }
    ensures { outcome_of result bits.new
        ≡ taking_row kinds.now row.now bits.old }
{
    if let Some(index) = bit_rows::first_frozen_one(kinds, row) {
        return Err(Refusal::NotAWord(index));
    }
    bit_rows::pick(kinds, row, bits);
    Ok(())
}
