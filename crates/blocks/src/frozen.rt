// Blocks of 16 frozen indices, and of 15 frozen ones before an information index: how many of a
// block are taken at once, what their zeros add by the block's row of 16 sums, and the zeros.
ghost use Rattle.std.specs.Prelude.{◌≡◌, ◌+◌, ◌≤◌, ◌<◌, length, take, drop};
ghost use Rattle.std.proofs.Math.Seq.{paste};
ghost use Rattle.decoding.specs.Readings.{sizes, sum_limit};
ghost use Rattle.decoding.specs.Blocks.{zeros};
ghost use Rattle.rows.specs.Rows.{row_of};
ghost use Rattle.blocks.specs.Frozen.{all_frozen, frozen_run, lost_by, run_adds};

// The 15 indices from i on are frozen. No early return, so that the compiler looks at all at once.
fn fifteen_frozen(kinds: &[u8; 256], i: usize) -> bool
    requires { (i + 16 ≤ 256) × (i + 16 ≤ length kinds.now) }
    ensures { result ≡ all_frozen (take 15 (drop i kinds.now)) }
{
    let mut some = false;
    for j in 0..15 {
        some = some | (kinds[i + j] != 0);
    }
    !some
}

// How many of the 16 indices from i on are taken at once: all, where they are frozen; all but the
// last, where only that carries information; else none.
pub fn run(kinds: &[u8; 256], i: usize) -> usize
    requires { (i + 16 ≤ 256) × (i + 16 ≤ length kinds.now) }
    ensures { result ≡ frozen_run (drop i kinds.now) }
{
    if !fifteen_frozen(kinds, i) {
        return 0;
    }
    if kinds[i + 15] == 0 {
        return 16;
    }
    15
}

// What the same bit everywhere loses at the row of 16 sums.
fn lost(rows: &[i32; 256], bit: u8) -> u32
    requires { (16 + 16 ≤ length rows.now) × (sizes (row_of 16 rows.now) < sum_limit) }
    ensures { result ≡ lost_by bit (row_of 16 rows.now) }
{
    let mut p = 0;
    for j in 0..16 {
        p += rows::loss(rows[16 + j], bit);
    }
    p
}

// What n zeros add, by the row of 16 sums: 16 what all of them lose there; 15, which the better of
// both bits may follow, what that one loses everywhere.
pub fn added(rows: &[i32; 256], n: usize) -> u32
    requires { (16 + 16 ≤ length rows.now) × (sizes (row_of 16 rows.now) < sum_limit) }
    ensures { result ≡ run_adds n (row_of 16 rows.now) }
{
    let zeros = lost(rows, 0);
    if n == 16 {
        return zeros;
    }
    let ones = lost(rows, 1);
    if ones < zeros {
        return ones;
    }
    zeros
}

// Sixteen zeros from i on.
pub fn put_zeros(path: &mut [u8; 256], i: usize)
    requires { (i + 16 ≤ 256) × (i + 16 ≤ length path.old) }
    ensures { path.new ≡ paste path.old i (zeros 16) 16 }
{
    path[i..i + 16].fill(0);
}
