// Float arithmetic for the crate rows: the two combining steps on one pair; what a bit loses at a
// value. Sums of whole numbers below 2^24 are exact, so that each function gives what whole numbers
// give for those that its floats are.
#![tactic(auto)]

ghost use Rattle.std.specs.Prelude.{◌≡◌, ◌<◌, pos, nat_abs};
ghost use Rattle.decoding.specs.Readings.{loss, sizes, sum_limit};
ghost use Rattle.rows.specs.Order.{lesser, greater};
ghost use Rattle.float_rows.specs.FloatRowLaws.{each_float, small_pair};
ghost use Rattle.float_numbers.specs.Whole.{whole_of, wholes};

// stays: f32::min and f32::max ask for a NaN, too: eight instructions more for a row of four sums.
fn lesser(x: f32, y: f32) -> f32
    requires { (nat_abs (whole_of x) < sum_limit) × (nat_abs (whole_of y) < sum_limit) }
    ensures { whole_of result ≡ lesser (whole_of x) (whole_of y) }
{
    if x < y { x } else { y }
}

fn greater(x: f32, y: f32) -> f32
    requires { (nat_abs (whole_of x) < sum_limit) × (nat_abs (whole_of y) < sum_limit) }
    ensures { whole_of result ≡ greater (whole_of x) (whole_of y) }
{
    if x < y { y } else { x }
}

// Sums that are floats, of readings that are floats: each one a whole number.
pub struct Float;

impl rows::Arithmetic for Float {
    type Sum = f32;

    type Reading = f32;

    ghost whole = { whole_of };

    ghost wholes = { wholes };

    ghost read = { whole_of };

    ghost reads = { wholes };

    ghost asked = { λ l. sizes l < sum_limit };

    ghost known = { λ z. Unit {0} };

    ghost each_sum = { each_float };

    ghost each_reading = { each_float };

    ghost small = { small_pair };

    ghost enough = { λ l h. h };

    fn of_reading(reading: f32) -> f32 {
        reading
    }

    fn lower(x: f32, y: f32) -> f32 {
        let turned = -greater(x, y);
        greater(lesser(x, y), turned)
    }

    fn upper(x: f32, y: f32, a: u8) -> f32 {
        if a == 0 { y + x } else { y - x }
    }
}

// The size of a value that the bit contradicts, else 0.
// stays: beside rows::loss: one is a float, the other a count, and each walk calls its own.
pub fn loss(value: f32, bit: u8) -> f32
    requires { nat_abs (whole_of value) < sum_limit }
    ensures { whole_of result ≡ pos (loss (whole_of value) bit) }
{
    if bit == 0 {
        if value < 0.0 {
            return -value;
        }
        return 0.0;
    }
    if value < 0.0 {
        return 0.0;
    }
    value
}
