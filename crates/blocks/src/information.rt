// Blocks of information indices, each choosing the bit that its value speaks for.
ghost use Rattle.std.specs.Prelude.{◌≡◌, ◌+◌, ◌^◌, ◌≤◌, ◌<◌, length};
ghost use Rattle.decoding.specs.Blocks.{hard_row};
ghost use Rattle.rows.specs.Rows.{row_of};
ghost use Rattle.blocks.specs.Information.{all_chosen, with_hard};

// All n indices from i on carry information. Without an early end, so that many are tested at once.
pub fn all_chosen(kinds: &[u8], i: usize, n: usize) -> bool
    requires { i + n ≤ length kinds.now }
    ensures { result ≡ all_chosen kinds.now i n }
{
    let mut all = true;
    for kind in &kinds[i..i + n] {
        all = all & (*kind != 0);
    }
    all
}

// The choices of four indices whose word is the bits that their row speaks for, by straight code.
fn hard_four(rows: &[i32], bits: &mut [u8])
    requires { (length bits.old ≡ 4) × (8 ≤ length rows.now) }
    ensures { bits.new ≡ hard_row 2 (row_of 4 rows.now) }
{
    let b = rows::hard(rows[5]);
    let d = rows::hard(rows[7]);
    let c = (rows::hard(rows[6]) + d) % 2;
    let a = (rows::hard(rows[4]) + b) % 2;
    bits[0] = (a + c) % 2;
    bits[1] = (b + d) % 2;
    bits[2] = c;
    bits[3] = d;
}

// The same of n = 2^s indices.
fn hard_row(rows: &[i32], bits: &mut [u8], n: usize, s: usize)
    requires { (n ≡ 2 ^ s) × (length bits.old ≡ n) × (n + n ≤ length rows.now) }
    ensures { bits.new ≡ hard_row s (row_of n rows.now) }
{
    if s == 2 {
        hard_four(rows, bits);
        return;
    }
    rows::put_signs(&rows[n..n + n], bits);
    bit_rows::transform(bits, s);
}

// These choices at the n indices from i on.
pub fn put_hard(rows: &[i32], path: &mut [u8], i: usize, n: usize, s: usize)
    requires { (n ≡ 2 ^ s) × (i + n ≤ length path.old) × (n + n ≤ length rows.now) }
    ensures { path.new
        ≡ with_hard n s i rows.now path.old }
{
    hard_row(rows, &mut path[i..i + n], n, s);
}
