// A row of n bytes that names information indices (docs/RULES.md, §15), 1 where named: its test,
// and the kinds that it leaves.
#![tactic(auto)]

ghost use Rattle.std.specs.Prelude.{◌≡◌, ◌^◌, length};
ghost use Rattle.numbers.specs.Sums.{sum};
ghost use Rattle.words.specs.Kinds.{kinds};
ghost use Rattle.code.specs.Sound.{Sound};
ghost use Rattle.named.specs.Named.{kind_left, left, named_frozen, names_frozen};
ghost use Rattle.named.specs.Named.{good_row, row_admitted};

use code::{Code, Refusal};

// A named index is frozen too.
fn kind_left(named: u8, kind: u8) -> u8
    ensures { result ≡ kind_left named kind }
{
    if named == 0 { kind } else { 0 }
}

fn named_frozen(named: u8, kind: u8) -> bool
    ensures { result ≡ named_frozen named kind }
{
    if named == 0 {
        return false;
    }
    kind == 0
}

// Whether the row names a frozen index.
fn names_frozen(code: Code, named: &[u8]) -> bool
    requires { Sound code × (length named.now ≡ 2 ^ code.m) }
    ensures { result ≡ names_frozen named.now (kinds code.r code.m) }
{
    for (i, name) in named.iter().enumerate() {
        if named_frozen(*name, code.kind(i)) {
            return true;
        }
    }
    false
}

// How many information indices the row leaves.
// stays: code and named apart: a struct of both would be made in each call, for two calls on it
pub fn count_left(code: Code, named: &[u8]) -> usize
    requires { Sound code × (length named.now ≡ 2 ^ code.m) }
    ensures { result ≡ sum (left named.now (kinds code.r code.m)) }
{
    let mut count = 0usize;
    for (i, name) in named.iter().enumerate() {
        count += usize::from(kind_left(*name, code.kind(i)));
    }
    count
}

// The kinds that the row leaves.
pub fn put_left(code: Code, named: &[u8], row: &mut [u8])
    requires { Sound code × (length named.now ≡ 2 ^ code.m)
        × (length row.old ≡ 2 ^ code.m) }
    ensures { row.new ≡ left named.now (kinds code.r code.m) }
{
    for i in 0..row.len() {
        row[i] = kind_left(named[i], code.kind(i));
    }
}

// Whether the row has n bytes, all 0 or 1, names information indices only, and leaves at least one.
fn good_row(code: Code, named: &[u8]) -> bool
    requires { Sound code }
    ensures { result ≡ good_row named.now (kinds code.r code.m) }
{
    if named.len() != code.length() {
        return false;
    }
    if code::test_bits(named).is_err() {
        return false;
    }
    if names_frozen(code, named) {
        return false;
    }
    0 < count_left(code, named)
}

// The tests 1 and 12.
pub fn admit_row(r: u32, m: u32, named: &[u8]) -> Result<Code, Refusal>
    ensures { result ≡ row_admitted r m named.now }
{
    let code = Code::new(r, m)?;
    if !good_row(code, named) {
        return Err(Refusal::Named);
    }
    Ok(code)
}
