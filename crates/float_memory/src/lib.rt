// The walk's memory in float arithmetic: the value at the next index of the path. The path's bits
// are in path, and the rows of the blocks that lead to an index are floats, which the crate memory
// makes.
#![tactic(auto)]

ghost use Rattle.std.specs.Prelude.{◌≡◌, ◌^◌, take};
ghost use Rattle.decoding.specs.Walk.{value};
ghost use Rattle.memory.specs.Memory.{RowsFor, ValueReady};
ghost use Rattle.float_numbers.specs.Whole.{whole_of, wholes};

use float_rows::Float;

// The value at index i of the path. The rows are for index was, and then for i. Most often i
// comes next, and then at most three rows, of up to four sums, have to be made for seven indices in
// eight; two places call any_value, so that the compiler does not inline it into that short path.
// stays: beside memory::value: the short way is for the next index alone, and must-fail/ turns it.
pub fn value(
    readings: &[f32; 256],
    rows: &mut [f32; 256],
    path: &[u8; 256],
    word: &mut [u8; 256],
    m: usize,
    was: usize,
    i: usize,
) -> f32
    requires { ValueReady m (take (2 ^ m) (wholes readings.now)) path.now was i
        (wholes rows.old) }
    ensures { (whole_of result
        ≡ value m (take (2 ^ m) (wholes readings.now)) (take i path.now))
        × RowsFor m (take (2 ^ m) (wholes readings.now)) path.now i i
        (wholes rows.new) }
{
    if m < 4 {
        return memory::any_value::<Float>(readings, rows, path, word, m, was, i);
    }
    if was + 1 == i {
        if i % 2 == 1 {
            memory::start_of_1::<Float>(rows, path, i);
            return rows[1];
        }
        if i % 4 == 2 {
            memory::start_of_2::<Float>(rows, path, i);
            return rows[1];
        }
        if i % 8 == 4 {
            memory::start_of_4::<Float>(rows, path, word, i);
            return rows[1];
        }
    }
    memory::any_value::<Float>(readings, rows, path, word, m, was, i)
}
