// First-order words (docs/RULES.md, §13), without a walk: up to sign, the entries of one
// transform are the correlations of all words of RM(1,m), so the best two of them say what the
// search would say.
#![tactic(auto)]

ghost use Rattle.std.specs.Prelude.{◌≡◌, ◌+◌, ◌-◌, ◌^◌, ◌≤◌, ◌<◌, max, nat_abs, length, take};
ghost use Rattle.words.specs.Bits.{Bits};
ghost use Rattle.decoding.specs.Readings.{sizes, Within};
ghost use Rattle.decoding.specs.Quick.{hard};
ghost use Rattle.hadamard.specs.Hadamard.{hadamard, first_order, bits_of};
ghost use Rattle.code.specs.Sound.{largest_m, rm};
ghost use Rattle.code.specs.SoundInput.{SoundReadings};
ghost use Rattle.search.specs.Outcome.{outcome_of};
ghost use Rattle.first_order.specs.Outcome.{as_search, first_ordering};
ghost use Rattle.first_order.specs.Work.{crossed, doubled, largest_entry};
ghost use Rattle.first_order.specs.Work.{Top, size_at, key_at, Looked};

use code::Refusal;
use search::Found;

// The place of the largest size, whether the entry there is negative, that size and the next.
#[derive(Clone, Copy)]
pub struct Seen {
    pub place: usize,
    pub negative: bool,
    pub best: u32,
    pub second: u32,
}

// Writes the information bits and the word of least penalty of RM(1,m), if no other word has
// that penalty. There are no visits.
pub fn first_order(
    r: u32,
    m: u32,
    readings: &[i16],
    bits: &mut [u8],
    word: &mut [u8],
) -> Result<Found, Refusal>
    ensures { outcome_of result bits.new word.new
        ≡ first_ordering r m readings.now bits.old word.old }
{
    if r != 1 {
        return Err(Refusal::Parameters);
    }
    let code = code::admit(1, m, readings, bits.len(), word.len())?;
    decode(code.m as usize, readings, bits, word)
}

// The work, once no test refuses.
fn decode(m: usize, readings: &[i16], bits: &mut [u8], word: &mut [u8]) -> Result<Found, Refusal>
    requires { SoundReadings (rm 1 m) readings.now (length bits.old) (length word.old) }
    ensures { outcome_of result bits.new word.new
        ≡ as_search m readings.now bits.old word.old }
{
    let mut sums = [0i32; 256];
    let n = readings.len();
    let seen = find(readings, &mut sums[0..n], m);
    let penalty = (total_size(readings) - seen.best) / 2;
    if seen.best == seen.second {
        return Err(Refusal::Tied { penalty, visits: 0 });
    }
    let sign = u8::from(seen.negative);
    put_bits(bits, m, seen.place, sign);
    put_word(word, m, seen.place, sign);
    Ok(Found {
        penalty,
        gap: (seen.best - seen.second) / 2,
        visits: 0,
    })
}

// The largest entries of the transform, which is made in the lent row.
fn find(readings: &[i16], row: &mut [i32], m: usize) -> Seen
    requires { (0 < m) × (m ≤ largest_m) × (length readings.now ≡ 2 ^ m)
        × (length row.old ≡ 2 ^ m) × (sizes readings.now < largest_entry) }
    ensures { Looked (hadamard m readings.now) result }
{
    put_sums(readings, row);
    transform(row, m);
    look(row)
}

fn put_sums(readings: &[i16], row: &mut [i32])
    requires { length row.old ≡ length readings.now }
    ensures { row.new ≡ readings.now }
{
    for (j, reading) in readings.iter().enumerate() {
        row[j] = i32::from(*reading);
    }
}

// ---- the transform
// The sums of the halves of 2h entries in the first half, their differences in the second.
fn cross(row: &mut [i32], h: usize)
    requires { (length row.old ≡ h + h) × (sizes row.old < 2 ^ 31) }
    ensures { row.new ≡ crossed h row.old }
{
    for j in 0..h {
        let a = row[j];
        let b = row[h + j];
        row[j] = a + b;
        row[h + j] = a - b;
    }
}

// The transforms of four, eight and sixteen entries. All their steps are constants: the compiler
// makes straight vector code of them.
// stays: a size that is a const parameter cannot be halved, and a closure for the half needs a
// contract longer than the three.
fn four(row: &mut [i32])
    requires { (length row.old ≡ 4) × (sizes row.old < 2 ^ 31) }
    ensures { row.new ≡ hadamard 2 row.old }
{
    cross(row, 2);
    cross(&mut row[0..2], 1);
    cross(&mut row[2..], 1);
}

fn eight(row: &mut [i32])
    requires { (length row.old ≡ 8) × (sizes row.old < 2 ^ 31) }
    ensures { row.new ≡ hadamard 3 row.old }
{
    cross(row, 4);
    four(&mut row[0..4]);
    four(&mut row[4..]);
}

fn sixteen(row: &mut [i32])
    requires { (length row.old ≡ 16) × (sizes row.old < 2 ^ 31) }
    ensures { row.new ≡ hadamard 4 row.old }
{
    cross(row, 8);
    eight(&mut row[0..8]);
    eight(&mut row[8..]);
}

// The transform of 2^m entries, in place.
fn transform(row: &mut [i32], m: usize)
    requires { (length row.old ≡ 2 ^ m) × (sizes row.old < 2 ^ 31) }
    ensures { row.new ≡ hadamard m row.old }
{
    if m == 4 {
        sixteen(row);
        return;
    }
    if m == 0 {
        return;
    }
    let h = row.len() / 2;
    cross(row, h);
    transform(&mut row[0..h], m - 1);
    transform(&mut row[h..], m - 1);
}

// ---- looking at all entries
// The sum of the readings' sizes.
fn total_size(readings: &[i16]) -> u32
    requires { sizes readings.now < 2 ^ 31 }
    ensures { result ≡ sizes readings.now }
{
    let mut sum = 0u32;
    for reading in readings {
        sum += u32::from(reading.unsigned_abs());
    }
    sum
}

// The largest size, with its place in the lowest byte: a loop without a branch.
fn top_key(row: &[i32]) -> u32
    requires { (length row.now ≤ 256) × Within (2 ^ 24 - 1) row.now }
    ensures { Top (key_at row.now) (length row.now) result }
{
    let mut most = 0u32;
    let n = row.len() as u32;
    for j in 0..n {
        most = (row[j as usize].unsigned_abs() * 256 + j).max(most);
    }
    most
}

// The largest size.
fn top_size(row: &[i32]) -> u32
    requires { Within (2 ^ 24 - 1) row.now }
    ensures { Top (size_at row.now) (length row.now) result }
{
    let mut most = 0u32;
    for entry in row {
        most = entry.unsigned_abs().max(most);
    }
    most
}

// The best and the next. The entry of the best is set to 0, so that the next is the largest left.
fn look(row: &mut [i32]) -> Seen
    requires { (2 ≤ length row.old) × (length row.old ≤ 256)
        × Within (2 ^ 24 - 1) row.old }
    ensures { Looked row.old result }
{
    let key = top_key(row);
    let place = (key % 256) as usize;
    let negative = row[place].is_negative();
    row[place] = 0;
    let second = top_size(row);
    Seen {
        place,
        negative,
        best: key / 256,
        second,
    }
}

// ---- the word
// The first h bits of the word repeated after them, each plus the bit, modulo 2.
fn double(word: &mut [u8], h: usize, bit: u8)
    requires { (h + h ≤ length word.old) × Bits (take h word.old) × (bit < 2) }
    ensures { word.new ≡ doubled h bit word.old }
{
    for j in 0..h {
        word[h + j] = (word[j] + bit) % 2;
    }
}

// The word of the place: it starts with the sign and is doubled by each digit, the lowest first.
pub fn put_word(word: &mut [u8], m: usize, place: usize, sign: u8)
    requires { (length word.old ≡ 2 ^ m) × (m ≤ largest_m) × (sign < 2) }
    ensures { word.new ≡ first_order m place sign }
{
    word[0] = sign;
    for p in 0..m {
        let above = place >> p;
        double(word, 1 << p, (above % 2) as u8);
    }
}

// The digits of the place, the highest first; then the sign plus their number of ones, modulo 2.
fn put_bits(bits: &mut [u8], m: usize, place: usize, sign: u8)
    requires { (length bits.old ≡ m + 1) × (m ≤ largest_m) × (place < 2 ^ m) × (sign < 2) }
    ensures { bits.new ≡ bits_of m place sign }
{
    for i in 0..m {
        let above = place >> (m - 1 - i);
        bits[i] = (above % 2) as u8;
    }
    bits[m] = ((place.count_ones() % 2) as u8 + sign) % 2;
}
