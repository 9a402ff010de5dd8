// The tilt telegram (docs/RULES.md, §11): a cylinder, a direction and a tilt in one word of
// RM(2,5), over the encoder and the search, of which only what they promise is known here.
#![tactic(auto)]

ghost use Rattle.std.specs.Prelude.{◌≡◌, ◌≤◌, length};
ghost use Rattle.code.specs.Sound.{default_allowance};
ghost use Rattle.words.specs.Bits.{Bits, digits};
ghost use Rattle.telegram.specs.Telegram.{telegram_of, word_of};
ghost use Rattle.telegram.specs.Faults.{tilt_fault, field_fault, writer_fault, reader_fault};
ghost use Rattle.guarded.specs.Written.{written_outcome_of};
ghost use Rattle.telegram.specs.Outcome.{writing_telegram};
ghost use Rattle.telegram.specs.Outcome.{outcome_of, judged, reading_telegram, reading_bits};

use code::Refusal;
pub use guarded::Fault;
use guarded::number_of;
use search::Found;

// What the tilt head says. Direction 1 is to port; the tilt is in hundredths of a degree.
#[derive(Clone, Copy)]
pub struct Telegram {
    pub cylinder: u32,
    pub direction: u32,
    pub tilt: u32,
}

impl Telegram {
    pub const LARGEST_CYLINDER: u32 = 7;

    pub const LARGEST_DIRECTION: u32 = 1;

    pub const LARGEST_TILT: u32 = 1500;

    pub const LENGTH: usize = 32;

    // the number of information bits
    pub const BITS: usize = 16;
}

// What a reader shows: the telegram, and what the search says of its word.
#[derive(Clone, Copy)]
pub struct Heard {
    pub telegram: Telegram,
    pub found: Found,
}

// Writes the telegram's word into the lent buffer.
pub fn write(cylinder: u32, direction: u32, tilt: u32, word: &mut [u8]) -> Result<(), Fault>
    ensures { written_outcome_of result word.new
        ≡ writing_telegram cylinder direction tilt word.old }
{
    if word.len() != Telegram::LENGTH {
        return Err(Refusal::OutputLength.into());
    }
    let telegram = Telegram {
        cylinder,
        direction,
        tilt,
    };
    writer_fault(telegram)?;
    put_word(telegram, word);
    Ok(())
}

// The telegram of the best word for the readings, or why there is none to show.
pub fn read_within(allowed: u32, readings: &[i16]) -> Result<Heard, Fault>
    ensures { outcome_of result ≡ reading_telegram allowed readings.now }
{
    let mut found_bits = [0u8; 16];
    let mut word = [0u8; 32];
    let answer = search::search_within(2, 5, allowed, readings, &mut found_bits, &mut word);
    // nothing of its runner-up is shown
    let found = answer.result?;
    judge(&found_bits, found)
}

// The same, with the default allowance.
pub fn read(readings: &[i16]) -> Result<Heard, Fault>
    ensures { outcome_of result
        ≡ reading_telegram default_allowance readings.now }
{
    read_within(code::Code::DEFAULT_ALLOWANCE, readings)
}

// What 16 information bits say, for example those of a runner-up: the reader without its search.
pub fn of_bits(bits: &[u8]) -> Result<Heard, Fault>
    ensures { outcome_of result ≡ reading_bits bits.now }
{
    if bits.len() != Telegram::BITS {
        return Err(Refusal::InputLength.into());
    }
    code::test_bits(bits)?;
    judge(
        bits,
        Found {
            penalty: 0,
            gap: 0,
            visits: 0,
        },
    )
}

// ---- tests
// Tests 14 and 15.
fn tilt_fault(telegram: Telegram) -> Result<(), Fault>
    ensures { result ≡ tilt_fault telegram }
{
    if Telegram::LARGEST_TILT < telegram.tilt {
        return Err(Fault::Tilt);
    }
    if telegram.tilt == 0 {
        if telegram.direction == 1 {
            return Err(Fault::ZeroTilt);
        }
    }
    Ok(())
}

// The writer's: 14, 15, 16.
fn writer_fault(telegram: Telegram) -> Result<(), Fault>
    ensures { result ≡ writer_fault telegram }
{
    tilt_fault(telegram)?;
    field_fault(telegram)
}

// Test 16.
fn field_fault(telegram: Telegram) -> Result<(), Fault>
    ensures { result ≡ field_fault telegram }
{
    if Telegram::LARGEST_CYLINDER < telegram.cylinder {
        return Err(Fault::Field);
    }
    if Telegram::LARGEST_DIRECTION < telegram.direction {
        return Err(Fault::Field);
    }
    Ok(())
}

// The reader's: 13, 14, 15.
fn reader_fault(marker: u8, telegram: Telegram) -> Result<(), Fault>
    ensures { result ≡ reader_fault marker telegram }
{
    if marker != 0 {
        return Err(Fault::Marker);
    }
    tilt_fault(telegram)
}

// ---- bits
// The number's lowest binary digits, as many as there are places, most significant first.
// stays: first_order's put_bits adds a check bit, so that only two lines of a loop are alike
fn put_number(number: u32, bits: &mut [u8])
    requires { length bits.old ≤ 16 }
    ensures { bits.new ≡ digits (length bits.old) number }
{
    let n = bits.len();
    for i in 0..n {
        let above = number >> (n - 1 - i);
        bits[i] = (above % 2) as u8;
    }
}

// The telegram's bits, whose marker is last and stays 0, and their word.
fn put_word(telegram: Telegram, word: &mut [u8])
    requires { length word.old ≡ 32 }
    ensures { word.new ≡ word_of telegram }
{
    let mut bits = [0u8; 16];
    put_number(telegram.cylinder, &mut bits[0..3]);
    put_number(telegram.direction, &mut bits[3..4]);
    put_number(telegram.tilt, &mut bits[4..15]);
    // 16 bits and 32 places are those of RM(2,5): no test refuses
    let _ = encode::encode(2, 5, &bits, word);
}

// The telegram that 16 bits say, whatever their marker is.
fn telegram_of(bits: &[u8]) -> Telegram
    requires { Bits bits.now × (length bits.now ≡ 16) }
    ensures { result ≡ telegram_of bits.now }
{
    let cylinder = number_of(&bits[0..3]);
    let direction = number_of(&bits[3..4]);
    let tilt = number_of(&bits[4..15]);
    Telegram {
        cylinder,
        direction,
        tilt,
    }
}

// Shows the telegram of the bits that the search found, unless a fault forbids it.
fn judge(bits: &[u8], found: Found) -> Result<Heard, Fault>
    requires { Bits bits.now × (length bits.now ≡ 16) }
    ensures { outcome_of result
        ≡ judged bits.now found.penalty found.gap found.visits }
{
    let telegram = telegram_of(bits);
    reader_fault(bits[15], telegram)?;
    Ok(Heard { telegram, found })
}
