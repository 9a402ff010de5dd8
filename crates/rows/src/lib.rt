// The two combining steps over rows of sums, for sums of any kind; the bit that a value speaks for,
// and what a bit loses at it.
// Rows of running sums are stored in one scratch array, the row of n sums at [n .. 2n].
#![tactic(auto)]

ghost use Rattle.std.specs.Prelude.{◌≡◌, List, map, ◌+◌, ◌^◌, ◌≤◌, ◌<◌, ℤ, nat_abs, length, take};
ghost use Rattle.decoding.specs.Readings.{loss, sizes, sum_limit};
ghost use Rattle.decoding.specs.Quick.{hard, lower, upper, lower_row, upper_row};
ghost use Rattle.rows.specs.SumLaws.{same_numbers, short_pair};
ghost use Rattle.rows.specs.Rows.{row_of, with_row};

// How sums are reckoned: the row functions here, and the walk's memory, are written once for whole
// numbers and for floats that are whole numbers.
pub trait Arithmetic {
    // What a row holds.
    type Sum: Copy;
    // What the row of all sums is read from.
    type Reading: Copy;

    // The whole number that a sum is, and those of a row of sums.
    ghost whole: { Self.Sum → ℤ };

    ghost wholes: { List Self.Sum → List ℤ };

    // The whole number that a reading is, and those of a row of readings.
    ghost read: { Self.Reading → ℤ };

    ghost reads: { List Self.Reading → List ℤ };

    // What is asked of a row of readings, and what is known of each: together they keep the sum of
    // two below the limit (`small`).
    ghost asked: { List ℤ → Type 0 };

    ghost known: { ℤ → Type 0 };

    fn of_reading(reading: Self::Reading) -> Self::Sum
        ensures { (whole result ≡ read reading) × known (read reading) };

    // The smaller of |x| and |y|, with the sign of their product: the greater of their lesser and
    // of minus their greater, which needs no branch.
    fn lower(x: Self::Sum, y: Self::Sum) -> Self::Sum
        requires { (nat_abs (whole x) < sum_limit) × (nat_abs (whole y) < sum_limit) }
        ensures { whole result ≡ lower (whole x) (whole y) };

    // y + x where a is 0, else y - x.
    fn upper(x: Self::Sum, y: Self::Sum, a: u8) -> Self::Sum
        requires { nat_abs (whole x) + nat_abs (whole y) < sum_limit }
        ensures { whole result ≡ upper (whole x) (whole y) a };

    ghost each_sum: { (l : List Self.Sum) → wholes l ≡ map whole l };

    ghost each_reading: { (l : List Self.Reading) → reads l ≡ map read l };

    ghost small: { (l : List ℤ) (x y : ℤ) → asked l → known x → known y
        → nat_abs x + nat_abs y ≤ sizes l → nat_abs x + nat_abs y < sum_limit };
    // A row of readings whose sizes sum to less is all right.
    ghost enough: { (l : List ℤ) → sizes l < sum_limit → asked l };
}

// Sums of 32 bits, of readings of 16: whole numbers as they are, so that any reading will do.
pub struct Whole;

impl Arithmetic for Whole {
    type Sum = i32;

    type Reading = i16;

    ghost whole = { λ z. z };

    ghost wholes = { λ l. l };

    ghost read = { λ z. z };

    ghost reads = { λ l. l };

    ghost asked = { λ l. Unit {0} };

    ghost known = { λ z. nat_abs z ≤ 2 ^ 15 };

    ghost each_sum = { same_numbers };

    ghost each_reading = { same_numbers };

    ghost small = { short_pair };

    ghost enough = { λ l h. tt };

    fn of_reading(reading: i16) -> i32 {
        i32::from(reading)
    }

    fn lower(x: i32, y: i32) -> i32 {
        let turned = -x.max(y);
        x.min(y).max(turned)
    }

    fn upper(x: i32, y: i32, a: u8) -> i32 {
        if a == 0 { y + x } else { y - x }
    }
}

// The bit that a value speaks for: a positive one and 0 for 0, a negative one for 1.
pub fn hard(value: i32) -> u8
    ensures { (result ≡ hard value) × (result < 2) }
{
    if value < 0 { 1 } else { 0 }
}

// The size of a value that the bit contradicts, else 0.
pub fn loss(value: i32, bit: u8) -> u32
    requires { nat_abs value < sum_limit }
    ensures { result ≡ loss value bit }
{
    if bit == 0 {
        if value < 0 {
            return value.unsigned_abs();
        }
        return 0;
    }
    if value < 0 {
        return 0;
    }
    value.unsigned_abs()
}

// The row of h sums for the lower half, from the row of 2h sums.
pub fn lower_row<A: Arithmetic>(rows: &mut [A::Sum], h: usize)
    requires { (h + h + (h + h) ≤ length rows.old)
        × (sizes (row_of (h + h) (A.wholes rows.old)) < sum_limit) }
    ensures { A.wholes rows.new
        ≡ with_row h (A.wholes rows.old)
        (lower_row h (row_of (h + h) (A.wholes rows.old))) }
{
    for j in 0..h {
        let x = rows[h + h + j];
        let y = rows[h + h + (h + j)];
        rows[h + j] = A::lower(x, y);
    }
}

// The row of h sums for the upper half, from the row of 2h sums and the lower half's word.
pub fn upper_row<A: Arithmetic>(rows: &mut [A::Sum], h: usize, word: &[u8])
    requires { (h + h + (h + h) ≤ length rows.old) × (h ≤ length word.now)
        × (sizes (row_of (h + h) (A.wholes rows.old)) < sum_limit) }
    ensures { A.wholes rows.new
        ≡ with_row h (A.wholes rows.old)
        (upper_row h (row_of (h + h) (A.wholes rows.old)) (take h word.now)) }
{
    for j in 0..h {
        let x = rows[h + h + j];
        let y = rows[h + h + (h + j)];
        rows[h + j] = A::upper(x, y, word[j]);
    }
}

// The row of h sums for the lower half, from 2h readings.
pub fn lower_top<A: Arithmetic>(readings: &[A::Reading], rows: &mut [A::Sum], h: usize)
    requires { (length readings.now ≡ h + h) × (h + h ≤ length rows.old)
        × A.asked (A.reads readings.now) }
    ensures { A.wholes rows.new
        ≡ with_row h (A.wholes rows.old) (lower_row h (A.reads readings.now)) }
{
    for j in 0..h {
        let x = A::of_reading(readings[j]);
        let y = A::of_reading(readings[h + j]);
        rows[h + j] = A::lower(x, y);
    }
}

// The row of h sums for the upper half, from 2h readings and the lower half's word.
pub fn upper_top<A: Arithmetic>(readings: &[A::Reading], rows: &mut [A::Sum], h: usize, word: &[u8])
    requires { (length readings.now ≡ h + h) × (h + h ≤ length rows.old)
        × (h ≤ length word.now) × A.asked (A.reads readings.now) }
    ensures { A.wholes rows.new
        ≡ with_row h (A.wholes rows.old)
        (upper_row h (A.reads readings.now) (take h word.now)) }
{
    for j in 0..h {
        let x = A::of_reading(readings[j]);
        let y = A::of_reading(readings[h + j]);
        rows[h + j] = A::upper(x, y, word[j]);
    }
}

// The bits that a row speaks for.
pub fn put_signs(row: &[i32], word: &mut [u8])
    requires { length row.now ≡ length word.old }
    ensures { word.new ≡ map hard row.now }
{
    for i in 0..word.len() {
        word[i] = hard(row[i]);
    }
}
