// The walk's memory: the value at the next index of the path. The path's bits are in path, and
// one scratch array holds the rows of the blocks that lead to an index, in either arithmetic. The
// word of the block before a row is made where the row needs it.
#![tactic(auto)]

ghost use Rattle.std.specs.Prelude.{◌≡◌, ◌+◌, ◌-◌, ◌^◌, ◌%◌, ◌≤◌, ◌<◌, length, take, drop};
ghost use Rattle.numbers.specs.Lowest.{LowestOne};
ghost use Rattle.words.specs.Bits.{Bits};
ghost use Rattle.words.specs.Word.{transform};
ghost use Rattle.decoding.specs.Readings.{sizes, sum_limit};
ghost use Rattle.decoding.specs.Walk.{value};
ghost use Rattle.rows.specs.Rows.{row_of, with_row};
ghost use Rattle.memory.specs.Memory.{below, new_row, remade, follows, Arrays, Made, RowsFor};
ghost use Rattle.memory.specs.Memory.{Highest, LowReady, RowsReady, Top, ValueReady};

use rows::{Arithmetic, Whole};

// 2^m, the length of a row.
pub fn power(m: usize) -> usize
    requires { 2 ^ m ≤ 256 }
    ensures { result ≡ 2 ^ m }
{
    1usize << m
}

// The place of the lowest one of i.
fn lowest_one(i: usize) -> usize
    requires { 0 < i }
    ensures { LowestOne result i }
{
    i.trailing_zeros() as usize
}

// The place of the highest one of x, or 0.
fn highest_one(x: usize) -> usize
    ensures { Highest x result }
{
    (x | 1).ilog2() as usize
}

// Of the rows for index was, the highest that has to be made again for index i: of a
// block that does not hold both, or that starts at i, where a bit may have changed before it.
pub fn top(m: usize, was: usize, i: usize) -> usize
    requires { (0 < m) × (2 ^ m ≤ 256) × (was < 2 ^ m) × (i < 2 ^ m) }
    ensures { Top m was i result }
{
    highest_one(was ^ i).max(lowest_one(i | power(m - 1)))
}

// The word of the h bits that end before e.
pub fn left_word(path: &[u8], word: &mut [u8], e: usize, h: usize, t: usize)
    requires { (h ≤ e) × (e ≤ length path.now) × (h ≤ length word.old) × (h ≡ 2 ^ t)
        × Bits path.now }
    ensures { take h word.new
        ≡ transform t (take h (drop (e - h) path.now)) }
{
    bit_rows::put_row(&path[e - h..e], &mut word[0..h], t);
}

// The same of two bits, by straight code, and by value: the compiler keeps it in registers.
fn pair(path: &[u8], e: usize) -> [u8; 2]
    requires { (2 ≤ e) × (e ≤ length path.now) × Bits path.now }
    ensures { result ≡ transform 1 (take 2 (drop (e - 2) path.now)) }
{
    let b = path[e - 1];
    let a = (path[e - 2] + b) % 2;
    [a, b]
}

// The same of four, put into the scratch array.
pub fn word_of_4(path: &[u8], word: &mut [u8], e: usize)
    requires { (4 ≤ e) × (e ≤ length path.now) × (4 ≤ length word.old)
        × Bits path.now }
    ensures { take 4 word.new
        ≡ transform 2 (take 4 (drop (e - 4) path.now)) }
{
    let q = path[e - 3];
    let d = path[e - 1];
    let c = (path[e - 2] + d) % 2;
    let b = (q + d) % 2;
    let a = ((path[e - 4] + q) % 2 + c) % 2;
    word[0] = a;
    word[1] = b;
    word[2] = c;
    word[3] = d;
}

// The row of 2^t sums for index i, from the row of twice as many.
// stays: rows are a slice here: the length of an array of sums is not known any more after a call.
fn row<A: Arithmetic>(
    rows: &mut [A::Sum],
    path: &[u8; 256],
    word: &mut [u8; 256],
    t: usize,
    i: usize,
)
    requires { (2 ^ t + 2 ^ t + (2 ^ t + 2 ^ t) ≤ 256) × (i < 256)
        × Arrays (A.wholes rows.old) path.now
        × (sizes (row_of (2 ^ t + 2 ^ t) (A.wholes rows.old)) < sum_limit) }
    ensures { A.wholes rows.new ≡ new_row t i path.now (A.wholes rows.old) }
{
    let h = power(t);
    let b = i / h;
    if b % 2 == 1 {
        left_word(path, word, b * h, h, t);
        rows::upper_row::<A>(rows, h, word);
        return;
    }
    rows::lower_row::<A>(rows, h);
}

// The same from all readings.
fn top_row<A: Arithmetic>(
    readings: &[A::Reading],
    rows: &mut [A::Sum],
    path: &[u8; 256],
    word: &mut [u8; 256],
    t: usize,
    i: usize,
)
    requires { (2 ^ t + 2 ^ t ≤ 256) × (i < 256) × Arrays (A.wholes rows.old) path.now
        × (length readings.now ≡ 2 ^ t + 2 ^ t) × (sizes (A.reads readings.now) < sum_limit) }
    ensures { A.wholes rows.new ≡ with_row (2 ^ t) (A.wholes rows.old)
        (below t i path.now (A.reads readings.now)) }
{
    let h = power(t);
    let b = i / h;
    if b % 2 == 1 {
        left_word(path, word, b * h, h, t);
        rows::upper_top::<A>(readings, rows, h, word);
        return;
    }
    rows::lower_top::<A>(readings, rows, h);
}

// The highest row that is made.
// stays: readings, rows, path and word are no struct: value would store all four at each call, and
// take 32 bytes more of the stack.
fn first_row<A: Arithmetic>(
    readings: &[A::Reading; 256],
    rows: &mut [A::Sum],
    path: &[u8; 256],
    word: &mut [u8; 256],
    m: usize,
    t: usize,
    i: usize,
)
    requires { Arrays (A.wholes rows.old) path.now
        × RowsReady m (take (2 ^ m) (A.reads readings.now)) path.now i t (A.wholes rows.old) }
    ensures { Made m (take (2 ^ m) (A.reads readings.now)) path.now i t (A.wholes rows.new) }
{
    if t + 1 == m {
        let n = power(m);
        let all = &readings[..];
        top_row::<A>(&all[0..n], rows, path, word, t, i);
        return;
    }
    row::<A>(rows, path, word, t, i);
}

// The row of 2^high sums and those below it down to eight sums, by loops.
fn make_rows<A: Arithmetic>(
    readings: &[A::Reading; 256],
    rows: &mut [A::Sum],
    path: &[u8; 256],
    word: &mut [u8; 256],
    m: usize,
    high: usize,
    i: usize,
)
    requires { Arrays (A.wholes rows.old) path.now
        × RowsReady m (take (2 ^ m) (A.reads readings.now)) path.now i high (A.wholes rows.old) }
    ensures { Made m (take (2 ^ m) (A.reads readings.now)) path.now i 3 (A.wholes rows.new) }
{
    first_row::<A>(readings, rows, path, word, m, high, i);
    for t in (3..high).rev() {
        row::<A>(rows, path, word, t, i);
    }
}

// The row of four sums for index i, from the row of eight. Here and below rows of up to four sums
// are made with their length as a constant, so that the compiler writes the loops out.
// stays: a function for each length, since each makes its word in its own way.
fn row_of_4<A: Arithmetic>(rows: &mut [A::Sum], path: &[u8; 256], word: &mut [u8; 256], i: usize)
    requires { LowReady 3 i path.now (A.wholes rows.old) }
    ensures { A.wholes rows.new ≡ new_row 2 i path.now (A.wholes rows.old) }
{
    let b = i / 4;
    if b % 2 == 1 {
        word_of_4(path, word, b * 4);
        rows::upper_row::<A>(rows, 4, word);
        return;
    }
    rows::lower_row::<A>(rows, 4);
}

// The row of two sums, from the row of four.
fn row_of_2<A: Arithmetic>(rows: &mut [A::Sum], path: &[u8; 256], i: usize)
    requires { LowReady 2 i path.now (A.wholes rows.old) }
    ensures { A.wholes rows.new ≡ new_row 1 i path.now (A.wholes rows.old) }
{
    let b = i / 2;
    if b % 2 == 1 {
        let word = pair(path, b * 2);
        rows::upper_row::<A>(rows, 2, &word);
        return;
    }
    rows::lower_row::<A>(rows, 2);
}

// The row of one sum, from the row of two; a word of one bit is that bit.
fn row_of_1<A: Arithmetic>(rows: &mut [A::Sum], path: &[u8; 256], i: usize)
    requires { LowReady 1 i path.now (A.wholes rows.old) }
    ensures { A.wholes rows.new ≡ new_row 0 i path.now (A.wholes rows.old) }
{
    if i % 2 == 1 {
        rows::upper_row::<A>(rows, 1, &path[i - 1..i]);
        return;
    }
    rows::lower_row::<A>(rows, 1);
}

// The rows of less than 2^k sums, at most three of them, for any index.
fn low_rows<A: Arithmetic>(
    rows: &mut [A::Sum],
    path: &[u8; 256],
    word: &mut [u8; 256],
    k: usize,
    i: usize,
)
    requires { (0 < k) × LowReady k i path.now (A.wholes rows.old) }
    ensures { A.wholes rows.new ≡ remade k i path.now (A.wholes rows.old) }
{
    if k == 3 {
        row_of_4::<A>(rows, path, word, i);
        row_of_2::<A>(rows, path, i);
        row_of_1::<A>(rows, path, i);
        return;
    }
    if k == 2 {
        row_of_2::<A>(rows, path, i);
        row_of_1::<A>(rows, path, i);
        return;
    }
    row_of_1::<A>(rows, path, i);
}

// The same where i starts a block of one index and none of two: one row.
pub fn start_of_1<A: Arithmetic>(rows: &mut [A::Sum], path: &[u8; 256], i: usize)
    requires { (i % 2 ≡ 1) × LowReady 1 i path.now (A.wholes rows.old) }
    ensures { A.wholes rows.new ≡ remade 1 i path.now (A.wholes rows.old) }
{
    rows::upper_row::<A>(rows, 1, &path[i - 1..i]);
}

// Of two and none of four: two rows.
pub fn start_of_2<A: Arithmetic>(rows: &mut [A::Sum], path: &[u8; 256], i: usize)
    requires { (i % 4 ≡ 2) × LowReady 2 i path.now (A.wholes rows.old) }
    ensures { A.wholes rows.new ≡ remade 2 i path.now (A.wholes rows.old) }
{
    let both = pair(path, i);
    rows::upper_row::<A>(rows, 2, &both);
    rows::lower_row::<A>(rows, 1);
}

// Of four and none of eight: three rows.
pub fn start_of_4<A: Arithmetic>(
    rows: &mut [A::Sum],
    path: &[u8; 256],
    word: &mut [u8; 256],
    i: usize,
)
    requires { (i % 8 ≡ 4) × LowReady 3 i path.now (A.wholes rows.old) }
    ensures { A.wholes rows.new ≡ remade 3 i path.now (A.wholes rows.old) }
{
    word_of_4(path, word, i);
    rows::upper_row::<A>(rows, 4, word);
    rows::lower_row::<A>(rows, 2);
    rows::lower_row::<A>(rows, 1);
}

// Of 2^t and none of twice as many, t at least 3: the row of 2^t sums, and all below it. These are
// lower rows, as no lower digit of i is 1.
fn start_of_more<A: Arithmetic>(
    readings: &[A::Reading; 256],
    rows: &mut [A::Sum],
    path: &[u8; 256],
    word: &mut [u8; 256],
    m: usize,
    t: usize,
    i: usize,
)
    requires { (3 ≤ t) × LowestOne t i × Arrays (A.wholes rows.old) path.now
        × RowsReady m (take (2 ^ m) (A.reads readings.now)) path.now i t (A.wholes rows.old) }
    ensures { Made m (take (2 ^ m) (A.reads readings.now)) path.now i 0 (A.wholes rows.new) }
{
    first_row::<A>(readings, rows, path, word, m, t, i);
    for u in (3..t).rev() {
        rows::lower_row::<A>(rows, power(u));
    }
    rows::lower_row::<A>(rows, 4);
    rows::lower_row::<A>(rows, 2);
    rows::lower_row::<A>(rows, 1);
}

// The row of 2^high sums and all below it, where m is below 4: straight code makes them, save the
// highest of all, which is made from the readings.
fn few_rows<A: Arithmetic>(
    readings: &[A::Reading; 256],
    rows: &mut [A::Sum],
    path: &[u8; 256],
    word: &mut [u8; 256],
    m: usize,
    high: usize,
    i: usize,
)
    requires { (m < 4) × Arrays (A.wholes rows.old) path.now
        × RowsReady m (take (2 ^ m) (A.reads readings.now)) path.now i high (A.wholes rows.old) }
    ensures { Made m (take (2 ^ m) (A.reads readings.now)) path.now i 0 (A.wholes rows.new) }
{
    let k = high + 1;
    if k < m {
        low_rows::<A>(rows, path, word, k, i);
        return;
    }
    first_row::<A>(readings, rows, path, word, m, high, i);
    if 0 < high {
        low_rows::<A>(rows, path, word, high, i);
    }
}

// The value at index i of the path, whichever index the rows are for. Rows of up to four sums are
// made by straight code.
pub fn any_value<A: Arithmetic>(
    readings: &[A::Reading; 256],
    rows: &mut [A::Sum; 256],
    path: &[u8; 256],
    word: &mut [u8; 256],
    m: usize,
    was: usize,
    i: usize,
) -> A::Sum
    requires { ValueReady m (take (2 ^ m) (A.reads readings.now)) path.now was i
        (A.wholes rows.old) }
    ensures { (A.whole result ≡ value m (take (2 ^ m) (A.reads readings.now)) (take i path.now))
        × RowsFor m (take (2 ^ m) (A.reads readings.now)) path.now i i (A.wholes rows.new) }
{
    if m == 0 {
        return A::of_reading(readings[0]);
    }
    let high = top(m, was, i);
    if m < 4 {
        few_rows::<A>(readings, rows, path, word, m, high, i);
        return rows[1];
    }
    if high < 3 {
        low_rows::<A>(rows, path, word, high + 1, i);
        return rows[1];
    }
    make_rows::<A>(readings, rows, path, word, m, high, i);
    low_rows::<A>(rows, path, word, 3, i);
    rows[1]
}

// Of the rows for index was, only those of the blocks that start at i change for index i: the next
// larger block that holds i holds was, too. So it is where i comes next, and where i starts the
// block behind the one that starts at was.
fn follows(was: usize, i: usize) -> bool
    ensures { result ≡ follows was i }
{
    0 < i && was ^ i <= i ^ (i - 1)
}

// The value at index i of the path. The rows are for index was, and then for i. Most often only the
// rows of the blocks that start at i change: at most three, of up to four sums, for seven indices
// in eight. Two places call any_value, so that the compiler keeps it out of that short way.
pub fn value(
    readings: &[i16; 256],
    rows: &mut [i32; 256],
    path: &[u8; 256],
    word: &mut [u8; 256],
    m: usize,
    was: usize,
    i: usize,
) -> i32
    requires { ValueReady m (take (2 ^ m) readings.now) path.now was i rows.old }
    ensures { (result ≡ value m (take (2 ^ m) readings.now) (take i path.now))
        × RowsFor m (take (2 ^ m) readings.now) path.now i i
        rows.new }
{
    if m < 4 {
        return any_value::<Whole>(readings, rows, path, word, m, was, i);
    }
    if follows(was, i) {
        if i % 2 == 1 {
            start_of_1::<Whole>(rows, path, i);
            return rows[1];
        }
        if i % 4 == 2 {
            start_of_2::<Whole>(rows, path, i);
            return rows[1];
        }
        if i % 8 == 4 {
            start_of_4::<Whole>(rows, path, word, i);
            return rows[1];
        }
        start_of_more::<Whole>(readings, rows, path, word, m, lowest_one(i), i);
        return rows[1];
    }
    any_value::<Whole>(readings, rows, path, word, m, was, i)
}
