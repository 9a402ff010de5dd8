// Readings in packed bytes (docs/RULES.md, §7) and back: a field of 12 bits for each, two fields in
// three bytes.
#![tactic(auto)]

ghost use Rattle.std.specs.Prelude.{◌≡◌, suc, ◌*◌, ◌/◌, ◌≤◌, ◌<◌, nat_abs, length};
ghost use Rattle.numbers.specs.Front.{front};
ghost use Rattle.decoding.specs.Readings.{Within};
ghost use Rattle.code.specs.Sound.{Sound, largest_m, largest_record_reading};
ghost use Rattle.packing.specs.Layout.{field, reading, packed, unpacked};
ghost use Rattle.packing.specs.Layout.{part_length, readings_in, part_readings};
ghost use Rattle.packing.specs.Unpacking.{outcome_of, unpacking};

use code::{Code, Refusal};

// How many bytes follow a record's first.
pub fn part_length(code: Code) -> usize
    requires { Sound code }
    ensures { result ≡ part_length code.m }
{
    (3 * code.length() + 1) / 2
}

// The field of -2,048, where the modem's converter stops, and what it is read as.
const BOTTOM_RAIL: u16 = 2048;

const RAIL_READING: i16 = -Code::LARGEST_RECORD_READING;

// The reading in a field of 12 bits: two's complement, except for the bottom rail.
fn reading_of(field: u16) -> i16
    requires { field < 4096 }
    ensures { result ≡ reading field }
{
    if field == BOTTOM_RAIL {
        return RAIL_READING;
    }
    if field < 2048 {
        return field as i16;
    }
    field as i16 - 4096
}

// Two readings from three bytes per pass; a last single one stays as it is.
fn put_reading_pairs(part: &[u8], readings: &mut [i16])
    requires { length readings.old ≡ length (unpacked part.now) }
    ensures { readings.new ≡ front readings.old
        (unpacked part.now) (2 * (length readings.old / 2)) }
{
    for j in 0..readings.len() / 2 {
        let a = u16::from(part[3 * j]);
        let b = u16::from(part[3 * j + 1]);
        let c = u16::from(part[3 * j + 2]);
        readings[2 * j] = reading_of(16 * a + b / 16);
        readings[2 * j + 1] = reading_of(256 * (b % 16) + c);
    }
}

// The readings of a packed part.
pub fn put_readings(part: &[u8], readings: &mut [i16])
    requires { length readings.old ≡ length (unpacked part.now) }
    ensures { readings.new ≡ unpacked part.now }
{
    let n = readings.len();
    put_reading_pairs(part, readings);
    if n % 2 == 1 {
        let j = n / 2;
        let first = u16::from(part[3 * j]);
        let second = u16::from(part[3 * j + 1]);
        readings[2 * j] = reading_of(16 * first + second / 16);
    }
}

// A reading as a field of 12 bits: two's complement.
fn field_of(reading: i16) -> u16
    requires { nat_abs reading ≤ largest_record_reading }
    ensures { (result ≡ field reading) × (result < 4096) }
{
    (reading + 4096) as u16 % 4096
}

// Three bytes of two readings per pass; a last single reading is left.
fn put_packed_pairs(readings: &[i16], part: &mut [u8])
    requires { Within largest_record_reading readings.now
        × (length part.old ≡ length (packed readings.now)) }
    ensures { part.new ≡ front part.old
        (packed readings.now) (3 * (length readings.now / 2)) }
{
    for j in 0..readings.len() / 2 {
        let a = field_of(readings[2 * j]);
        let b = field_of(readings[2 * j + 1]);
        part[3 * j] = (a / 16) as u8;
        part[3 * j + 1] = (16 * (a % 16) + b / 256) as u8;
        part[3 * j + 2] = (b % 256) as u8;
    }
}

// The packed part of readings.
pub fn put_packed(readings: &[i16], part: &mut [u8])
    requires { Within largest_record_reading readings.now
        × (length part.old ≡ length (packed readings.now)) }
    ensures { part.new ≡ packed readings.now }
{
    let n = readings.len();
    put_packed_pairs(readings, part);
    if n % 2 == 1 {
        let j = n / 2;
        let a = field_of(readings[2 * j]);
        part[3 * j] = (a / 16) as u8;
        part[3 * j + 1] = (16 * (a % 16)) as u8;
    }
}

// How many readings a packed part of this many bytes holds, if a record has such a part.
fn readings_in(bytes: usize) -> Option<usize>
    ensures { result ≡ part_readings (readings_in (suc largest_m) bytes) }
{
    for m in (0..=Code::LARGEST_M).rev() {
        let code = Code { r: 0, m };
        if bytes == part_length(code) {
            return Some(code.length());
        }
    }
    None
}

// Writes the readings of a packed part into the lent buffer.
pub fn unpack(part: &[u8], readings: &mut [i16]) -> Result<(), Refusal>
    ensures { outcome_of result readings.new
        ≡ unpacking part.now readings.old }
{
    let Some(n) = readings_in(part.len()) else {
        return Err(Refusal::InputLength);
    };
    if readings.len() != n {
        return Err(Refusal::OutputLength);
    }
    put_readings(part, readings);
    Ok(())
}
