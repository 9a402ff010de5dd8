// Rod position (docs/RULES.md, §18): a number from 0 to 2^m - 1 in one guarded word of RM(1,m),
// over the first-order words, of which only what they promise is known here.
#![tactic(auto)]

ghost use Rattle.std.specs.Prelude.{◌≡◌, suc, ◌≤◌, length, replicate};
ghost use Rattle.words.specs.Bits.{Bits};
ghost use Rattle.code.specs.Sound.{largest_m};
ghost use Rattle.guarded.specs.Outcome as guard;
ghost use Rattle.guarded.specs.Written.{written_outcome_of};
ghost use Rattle.rod.specs.Outcome.{outcome_of, position_said, reading_rod, writing_rod};

use code::{Code, Refusal};
use guarded::{Fault, number_of};

// What a reader shows: the position, and what is said of its word.
#[derive(Clone, Copy)]
pub struct Heard {
    pub position: u32,
    pub penalty: u32,
    pub gap: u32,
}

// Writes the position's word into the lent buffer.
pub fn write(m: u32, position: u32, word: &mut [u8]) -> Result<(), Fault>
    ensures { written_outcome_of result word.new
        ≡ writing_rod m position word.old }
{
    let code = Code::new(1, m)?;
    let n = code.length();
    if word.len() != n {
        return Err(Refusal::OutputLength.into());
    }
    let place = position as usize;
    if n <= place {
        return Err(Fault::Field);
    }
    // the sign that makes the marker 0
    let sign = (position.count_ones() % 2) as u8;
    first_order::put_word(word, m as usize, place, sign);
    Ok(())
}

// The position of the best word for the readings, or why there is none to show.
pub fn read(m: u32, readings: &[i16]) -> Result<Heard, Fault>
    ensures { outcome_of result ≡ reading_rod m readings.now }
{
    let code = Code::new(1, m)?;
    let last = m as usize;
    let k = last + 1;
    let n = code.length();
    let mut bits = [0u8; 9];
    let mut word = [0u8; 256];
    let found = first_order::first_order(1, m, readings, &mut bits[0..k], &mut word[0..n])?;
    judge(last, &bits[0..k], found.penalty, found.gap)
}

// Shows the position of the bits that were found, unless their marker is set.
fn judge(m: usize, bits: &[u8], penalty: u32, gap: u32) -> Result<Heard, Fault>
    requires { Bits bits.now × (length bits.now ≡ suc m) × (m ≤ largest_m) }
    ensures { outcome_of result
        ≡ position_said (guard.message_if bits.now penalty gap 0 (replicate m 0)) }
{
    let marker = bits[m];
    if marker != 0 {
        return Err(Fault::Marker);
    }
    let position = number_of(&bits[0..m]);
    Ok(Heard {
        position,
        penalty,
        gap,
    })
}
