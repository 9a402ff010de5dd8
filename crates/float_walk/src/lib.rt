// The crate walk in float arithmetic: two steps that call each other in turn, as there. What is
// held is passed by value: how many full paths, and two float penalties. What is counted is in
// count, as there.
#![tactic(auto)]

ghost use Rattle.std.specs.Prelude.{◌≡◌, ◌+◌, ◌^◌, ◌≤◌, ◌<◌, nat_abs, get_or, take};
ghost use Rattle.decoding.specs.Readings.{loss, sum_limit};
ghost use Rattle.decoding.specs.Quick.{hard};
ghost use Rattle.walk.specs.declared.progress.Count.{Count};
ghost use Rattle.walk.specs.Progress.{Finished, ValueAsked, ValueGiven, Walkable, Walked};
ghost use Rattle.float_numbers.specs.Whole.{whole_of, wholes};
ghost use Rattle.float_walk.specs.Held.{count, progress_of, Penalty, Counts, Extends};
ghost use Rattle.float_walk.specs.Held.{FloatAsked, FloatGiven};

use walk::progress::Count;

// The penalties of the full paths that are held; their rows of bits are in best and second.
#[derive(Clone, Copy)]
pub struct Penalties {
    // how many are held: none, the best, best and second
    pub held: u32,
    pub best: f32,
    pub second: f32,
}

// The result of an extension: it is dropped, or kept with its penalty.
#[derive(Clone, Copy)]
pub enum Extension {
    Dropped,
    Kept(f32),
}

// The path of this penalty, extended by the bit at the value: dropped if two full paths are held
// and the penalty is not below the second's.
fn extend(held: Penalties, penalty: f32, value: f32, bit: u8) -> Extension
    requires { Counts held × Penalty penalty × (nat_abs (whole_of value) < sum_limit)
        × (count penalty + loss (whole_of value) bit < sum_limit) }
    ensures { Extends held (count penalty + loss (whole_of value) bit) result }
{
    let after = penalty + float_rows::loss(value, bit);
    if held.held < 2 {
        return Extension::Kept(after);
    }
    if held.second <= after {
        return Extension::Dropped;
    }
    Extension::Kept(after)
}

// The bit that the value speaks for.
fn first_bit(value: f32) -> u8
    requires { nat_abs (whole_of value) < sum_limit }
    ensures { result ≡ hard (whole_of value) }
{
    if value < 0.0 { 1 } else { 0 }
}

// A full path is held: as best, when the old best becomes second, or as second.
fn finish(
    path: &[u8; 256],
    best: &mut [u8; 256],
    second: &mut [u8; 256],
    n: usize,
    penalty: f32,
    held: Penalties,
) -> Penalties
    requires { (n ≤ 256) × Penalty penalty × Counts held }
    ensures { ((c : Count) → n ≡ 2 ^ c.m
        → Finished (count penalty) (progress_of held c) path.now best.old second.old
        (progress_of result c) best.new second.new) × Counts result }
{
    if held.held == 0 {
        walk::copy(path, best, n);
        return Penalties {
            held: 1,
            best: penalty,
            ..held
        };
    }
    if penalty < held.best {
        walk::copy(best, second, n);
        walk::copy(path, best, n);
        return Penalties {
            held: 2,
            best: penalty,
            second: held.best,
        };
    }
    walk::copy(path, second, n);
    Penalties {
        held: 2,
        second: penalty,
        ..held
    }
}

// The value at index i of the path.
fn value_at(
    readings: &[f32; 256],
    rows: &mut [f32; 256],
    path: &[u8; 256],
    word: &mut [u8; 256],
    count: &mut Count,
    i: usize,
) -> f32
    requires { ValueAsked (wholes readings.now) (wholes rows.old) path.now count.old i }
    ensures { ValueGiven (wholes readings.now) path.now
        count.old i (whole_of result) (wholes rows.new) count.new }
{
    let was = count.made_for(i);
    float_memory::value(readings, rows, path, word, count.m as usize, was, i)
}

// The path of the first `from` bits, of this penalty, continues with 0 at each frozen index: up to
// an information index or the end, or until an extension is dropped or not allowed.
#[cycle(frozen_step_info_step)]
fn frozen_step(
    readings: &[f32; 256],
    kinds: &[u8; 256],
    rows: &mut [f32; 256],
    path: &mut [u8; 256],
    word: &mut [u8; 256],
    best: &mut [u8; 256],
    second: &mut [u8; 256],
    count: &mut Count,
    held: Penalties,
    from: usize,
    penalty: f32,
) -> Penalties
    requires { FloatAsked (wholes readings.now) kinds.now (wholes rows.old) path.old
        best.old second.old count.old held from penalty }
    ensures { FloatGiven (wholes readings.now) kinds.now
        path.old best.old second.old count.old
        held from penalty (wholes rows.new) path.new best.new
        second.new count.new result }
{
    let mut i = from;
    let mut sum = penalty;
    while !count.full(i) {
        if kinds[i] != 0 {
            return info_step(
                readings, kinds, rows, path, word, best, second, count, held, i, sum,
            );
        }
        if !count.visit() {
            return held;
        }
        let value = value_at(readings, rows, path, word, count, i);
        let Extension::Kept(after) = extend(held, sum, value, 0) else {
            // it is counted nevertheless
            return held;
        };
        // a 0 is there already, as in the whole-number walk
        walk::put(path, i, 0);
        sum = after;
        i += 1;
    }
    finish(path, best, second, i, sum, held)
}

// Both extensions at an information index i: first the bit that the value speaks for, which adds
// nothing, so that it is kept, with the same penalty; when everything under it is done, the other.
// If the walk under the first needed a visit that is not allowed, none is left for the other.
#[cycle(frozen_step_info_step)]
fn info_step(
    readings: &[f32; 256],
    kinds: &[u8; 256],
    rows: &mut [f32; 256],
    path: &mut [u8; 256],
    word: &mut [u8; 256],
    best: &mut [u8; 256],
    second: &mut [u8; 256],
    count: &mut Count,
    held: Penalties,
    i: usize,
    penalty: f32,
) -> Penalties
    requires { FloatAsked (wholes readings.now) kinds.now (wholes rows.old) path.old
        best.old second.old count.old held i penalty
        × (i < 2 ^ count.old.m) × (get_or kinds.now i 0 ≡ 0 → ⊥) }
    ensures { FloatGiven (wholes readings.now) kinds.now
        path.old best.old second.old count.old
        held i penalty (wholes rows.new) path.new best.new
        second.new count.new result }
{
    if !count.visit() {
        return held;
    }
    let value = value_at(readings, rows, path, word, count, i);
    let first = first_bit(value);
    let other = 1 - first;
    let Extension::Kept(same) = extend(held, penalty, value, first) else {
        return held;
    };
    walk::put(path, i, first);
    let under = frozen_step(
        readings,
        kinds,
        rows,
        path,
        word,
        best,
        second,
        count,
        held,
        i + 1,
        same,
    );
    if !count.visit() {
        return under;
    }
    let Extension::Kept(after) = extend(under, penalty, value, other) else {
        return under;
    };
    walk::put(path, i, other);
    frozen_step(
        readings,
        kinds,
        rows,
        path,
        word,
        best,
        second,
        count,
        under,
        i + 1,
        after,
    )
}

// The whole walk under an allowance. The rows of bits of the full paths that it holds are in best
// and second.
pub fn walk(
    readings: &[f32; 256],
    kinds: &[u8; 256],
    m: u32,
    allowed: u32,
    best: &mut [u8; 256],
    second: &mut [u8; 256],
) -> (Penalties, Count)
    requires { Walkable m (take (2 ^ m) (wholes readings.now)) (take (2 ^ m) kinds.now)
        best.old second.old }
    ensures { Walked allowed m (take (2 ^ m) (wholes readings.now))
        (take (2 ^ m) kinds.now) (progress_of result.0 result.1)
        best.new second.new × Counts result.0 }
{
    let mut rows = [0.0f32; 256];
    let mut path = [0u8; 256];
    let mut word = [0u8; 256];
    let mut count = Count::start(m, allowed);
    let none = Penalties {
        held: 0,
        best: 0.0,
        second: 0.0,
    };
    let held = frozen_step(
        readings, kinds, &mut rows, &mut path, &mut word, best, second, &mut count, none, 0, 0.0,
    );
    (held, count)
}
