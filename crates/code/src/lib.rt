// The code-parameter type: the limits, the tests on r and m, length, dimension and index kind;
// the refusals and their numbers. This is the one place for all of them.
#![tactic(auto)]

ghost use Rattle.std.specs.Prelude.{◌≡◌, ◌≤◌, ◌<◌, ◌^◌, length, nat_abs, ltb};
ghost use Rattle.numbers.specs.Parts.{up, down};
ghost use Rattle.numbers.specs.Sums.{tabulate};
ghost use Rattle.words.specs.Kinds.{kind, kinds, dimension};
ghost use Rattle.code.specs.Sound.{Sound, largest_m, made, carried};
ghost use Rattle.code.specs.Sound.{largest_reading, largest_record_reading};
ghost use Rattle.code.specs.Entries.{some_bad_bit, some_bad_reading};
ghost use Rattle.code.specs.Admitted.{bits_tested, readings_tested, admitted_by, admitted};

// The parameters of RM(r,m).
// stays: Sound is a clause, no invariant: docs/PROMISES.md names what takes a Code, and a narrower
// type would ask more of its callers.
#[derive(Clone, Copy)]
pub struct Code {
    pub r: u32,
    pub m: u32,
}

// Why a call refuses, in the order of the rules' table.
#[derive(Clone, Copy)]
pub enum Refusal {
    Parameters,
    InputLength,
    OutputLength,
    // the place of the entry
    Entry(usize),
    // the lowest frozen index that is 1
    NotAWord(usize),
    // the allowance
    OutOfVisits(u32),
    Tied { penalty: u32, visits: u32 },
    Torn,
    Pad,
    // no entry in an index, or no record after the last
    NoEntry,
    // a map of positions that is not of bits, or that nothing undoes
    Map,
    // a row that does not have n bits, names a frozen index, or leaves no information index
    Named,
}

// What a refusal reports: the rules' number, and the place, penalty and visits that it carries, 0
// for those that it does not carry.
#[derive(Clone, Copy, Default)]
pub struct Shown {
    pub number: u32,
    pub place: usize,
    pub penalty: u32,
    pub visits: u32,
}

// The numbers k of information bits of RM(0,m), RM(1,m), .. RM(8,m). A match, since a constant
// table would be built on the stack at each use.
fn dimensions(m: u32) -> [u16; 9]
    requires { m ≤ largest_m }
    ensures { result ≡ tabulate (λ r. dimension r m) 9 }
{
    match m {
        0 => [1, 1, 1, 1, 1, 1, 1, 1, 1],
        1 => [1, 2, 2, 2, 2, 2, 2, 2, 2],
        2 => [1, 3, 4, 4, 4, 4, 4, 4, 4],
        3 => [1, 4, 7, 8, 8, 8, 8, 8, 8],
        4 => [1, 5, 11, 15, 16, 16, 16, 16, 16],
        5 => [1, 6, 16, 26, 31, 32, 32, 32, 32],
        6 => [1, 7, 22, 42, 57, 63, 64, 64, 64],
        7 => [1, 8, 29, 64, 99, 120, 127, 128, 128],
        _ => [1, 9, 37, 93, 163, 219, 247, 255, 256],
    }
}

impl Code {
    pub const LARGEST_M: u32 = 8;

    pub const LARGEST_READING: i16 = 32767;

    // the same, as a float
    pub const LARGEST_FLOAT_READING: f32 = 32767.0;

    // of a record, whose fields have 12 bits
    pub const LARGEST_RECORD_READING: i16 = 2047;

    pub const DEFAULT_ALLOWANCE: u32 = 200000;

    // Test 1.
    pub fn new(r: u32, m: u32) -> Result<Code, Refusal>
        ensures { result ≡ made r m }
    {
        if Code::LARGEST_M < m {
            return Err(Refusal::Parameters);
        }
        if m < r {
            return Err(Refusal::Parameters);
        }
        Ok(Code { r, m })
    }

    // n, the number of positions.
    pub fn length(self) -> usize
        requires { Sound self }
        ensures { result ≡ 2 ^ self.m }
    {
        1usize << self.m
    }

    // k, the number of information bits.
    pub fn dimension(self) -> usize
        requires { Sound self }
        ensures { result ≡ dimension self.r self.m }
    {
        let row = dimensions(self.m);
        let r = self.r as usize;
        row[r] as usize
    }

    // 1 at an information index, 0 at a frozen one. An index fits a byte, and the compiler counts
    // the ones of many bytes at once.
    pub fn kind(self, i: usize) -> u8
        requires { Sound self × (i < 2 ^ self.m) }
        ensures { result ≡ kind self.r self.m i }
    {
        if self.m - self.r <= u8::count_ones(i as u8) {
            1
        } else {
            0
        }
    }
}

// Fills the row with the kinds of all indices.
pub fn put_kinds(code: Code, row: &mut [u8])
    requires { Sound code × (length row.old ≡ 2 ^ code.m) }
    ensures { row.new ≡ kinds code.r code.m }
{
    for i in 0..row.len() {
        row[i] = code.kind(i);
    }
}

// Whether some byte is above 1: without an early end, so that many bytes are tested at once.
fn some_bad_bit(bits: &[u8]) -> bool
    ensures { result ≡ some_bad_bit bits.now }
{
    let mut some = false;
    for bit in bits {
        some = some | (1 < *bit);
    }
    some
}

// Test 4 on bits: refuses the lowest place of a byte above 1.
pub fn test_bits(bits: &[u8]) -> Result<(), Refusal>
    ensures { result ≡ bits_tested bits.now }
{
    if !some_bad_bit(bits) {
        return Ok(());
    }
    for (i, bit) in bits.iter().enumerate() {
        if 1 < *bit {
            return Err(Refusal::Entry(i));
        }
    }
    Ok(())
}

// Whether a reading is beyond the largest, of either sign.
fn beyond(reading: i16, largest: i16) -> bool
    requires { down largest ≡ 0 }
    ensures { result ≡ ltb (up largest) (nat_abs reading) }
{
    if reading < -largest {
        return true;
    }
    largest < reading
}

// Whether some reading is beyond the largest.
fn some_beyond(readings: &[i16], largest: i16) -> bool
    requires { down largest ≡ 0 }
    ensures { result ≡ some_bad_reading (up largest) readings.now }
{
    let mut some = false;
    for reading in readings {
        some = some | beyond(*reading, largest);
    }
    some
}

// Refuses the lowest place of a reading beyond the largest.
fn test_within(readings: &[i16], largest: i16) -> Result<(), Refusal>
    requires { down largest ≡ 0 }
    ensures { result ≡ readings_tested (up largest) readings.now }
{
    if !some_beyond(readings, largest) {
        return Ok(());
    }
    for (i, reading) in readings.iter().enumerate() {
        if beyond(*reading, largest) {
            return Err(Refusal::Entry(i));
        }
    }
    Ok(())
}

// Test 4 on readings.
pub fn test_readings(readings: &[i16]) -> Result<(), Refusal>
    ensures { result ≡ readings_tested largest_reading readings.now }
{
    test_within(readings, Code::LARGEST_READING)
}

// The same for readings that are to go into a record, or came out of one.
pub fn test_record_readings(readings: &[i16]) -> Result<(), Refusal>
    ensures { result ≡ readings_tested largest_record_reading readings.now }
{
    test_within(readings, Code::LARGEST_RECORD_READING)
}

// The tests 1 to 4 in their order, for readings and lent outputs of these lengths.
pub fn admit(r: u32, m: u32, readings: &[i16], bits: usize, word: usize) -> Result<Code, Refusal>
    ensures { result ≡ admitted r m readings.now bits word }
{
    let code = Code::new(r, m)?;
    admit_for(code, code.dimension(), readings, bits, word)
}

// The tests 2 to 4, with this number of information bits expected.
pub fn admit_for(
    code: Code,
    expected: usize,
    readings: &[i16],
    bits: usize,
    word: usize,
) -> Result<Code, Refusal>
    requires { Sound code }
    ensures { result ≡ admitted_by code expected readings.now bits word }
{
    let n = code.length();
    if readings.len() != n {
        return Err(Refusal::InputLength);
    }
    if bits != expected {
        return Err(Refusal::OutputLength);
    }
    if word != n {
        return Err(Refusal::OutputLength);
    }
    test_readings(readings)?;
    Ok(code)
}

impl Refusal {
    // What the refusal reports, by the rules' table.
    pub fn shown(self) -> Shown
        ensures { (result.number ≡ (carried self).number) × (result.place ≡ (carried self).place)
            × (result.penalty ≡ (carried self).penalty) × (result.visits ≡ (carried self).visits) }
    {
        let none = Shown::default();
        match self {
            Refusal::Parameters => Shown { number: 1, ..none },
            Refusal::InputLength => Shown { number: 2, ..none },
            Refusal::OutputLength => Shown { number: 3, ..none },
            Refusal::Entry(place) => Shown {
                number: 4,
                place,
                ..none
            },
            Refusal::NotAWord(place) => Shown {
                number: 5,
                place,
                ..none
            },
            Refusal::OutOfVisits(visits) => Shown {
                number: 6,
                visits,
                ..none
            },
            Refusal::Tied { penalty, visits } => Shown {
                number: 7,
                penalty,
                visits,
                ..none
            },
            Refusal::Torn => Shown { number: 8, ..none },
            Refusal::Pad => Shown { number: 9, ..none },
            Refusal::NoEntry => Shown { number: 10, ..none },
            Refusal::Map => Shown { number: 11, ..none },
            Refusal::Named => Shown { number: 12, ..none },
        }
    }
}
