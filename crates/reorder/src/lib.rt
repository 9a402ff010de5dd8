// Position orders (docs/RULES.md, §12): reordering by a map of positions, the map that undoes it,
// and the product of two maps. A map is an m by m table of bits, row by row, and a row of m bits.
#![tactic(auto)]

ghost use Rattle.std.specs.Prelude.{◌≡◌, true, false, ℕ, nat_abs, length, MatchResult};
ghost use Rattle.code.specs.declared.Refusal.TheVariants.{OutputLength};
ghost use Rattle.code.specs.Sound.{largest_reading};
ghost use Rattle.code.specs.Entries.{first_above};
ghost use Rattle.code.specs.Admitted.{entry_tested};
ghost use Rattle.images.specs.Images.{is_long};
ghost use Rattle.reorder.specs.Outcome.{outcome_of, reordering_entries};
ghost use Rattle.reorder.specs.Outcome.{reordering, reordering_word, undoing, multiplying};
ghost use Rattle.reorder.specs.Work.{Given, NotGiven};

use code::{Code, Refusal};
use images::{Images, Map};

// What a map moves: readings, or bits, one per byte.
trait Entry: Copy {
    ghost size: { Self → ℕ };

    ghost limit: { ℕ };

    // The test 4: refuses the lowest place of an entry above the limit.
    fn test(entries: &[Self]) -> Result<(), Refusal>
        ensures { result ≡ entry_tested (first_above size limit entries.now) (length entries.now) };
}

impl Entry for i16 {
    ghost size = { nat_abs };

    ghost limit = { largest_reading };

    fn test(entries: &[i16]) -> Result<(), Refusal> {
        code::test_readings(entries)
    }
}

impl Entry for u8 {
    ghost size = { λ b. b };

    ghost limit = { 1 };

    fn test(entries: &[u8]) -> Result<(), Refusal> {
        code::test_bits(entries)
    }
}

// Writes the readings in the map's order: position j gets the reading at A·j + b.
#[tactic(auto, unfolding(crate::specs::Outcome::reordering))]
pub fn reorder(
    m: u32,
    table: &[u8],
    row: &[u8],
    readings: &[i16],
    out: &mut [i16],
) -> Result<(), Refusal>
    ensures { outcome_of result out.new
        ≡ reordering m table.now row.now readings.now
        out.old }
{
    reorder_entries(m, table, row, readings, out)
}

// The same on bits, one per byte.
#[tactic(auto, unfolding(crate::specs::Outcome::reordering_word))]
pub fn reorder_word(
    m: u32,
    table: &[u8],
    row: &[u8],
    word: &[u8],
    out: &mut [u8],
) -> Result<(), Refusal>
    ensures { outcome_of result out.new
        ≡ reordering_word m table.now row.now word.now
        out.old }
{
    reorder_entries(m, table, row, word, out)
}

// Writes the map that undoes the given one.
#[tactic(auto, unfolding(crate::specs::Outcome::undoing))]
pub fn undo_map(
    m: u32,
    table: &[u8],
    row: &[u8],
    out: &mut [u8],
    outrow: &mut [u8],
) -> Result<(), Refusal>
    ensures { outcome_of result (out.new, outrow.new)
        ≡ undoing m table.now row.now
        out.old outrow.old }
{
    let map = given_map(m, table, row)?;
    test_room(m, out.len(), outrow.len())?;
    let mut images = Images::zeroed();
    images::take_map(&map, &mut images)?;
    images::put_undo(map.m, &images.place, map.row, out, outrow);
    Ok(())
}

// Writes the map that reorders as the first map and then the second do.
#[tactic(auto, unfolding(crate::specs::Outcome::multiplying))]
pub fn product_map(
    m: u32,
    table1: &[u8],
    row1: &[u8],
    table2: &[u8],
    row2: &[u8],
    out: &mut [u8],
    outrow: &mut [u8],
) -> Result<(), Refusal>
    ensures { outcome_of result (out.new, outrow.new)
        ≡ multiplying m table1.now row1.now
        table2.now row2.now
        out.old outrow.old }
{
    let first = given_map(m, table1, row1)?;
    let second = given_map(m, table2, row2)?;
    test_room(m, out.len(), outrow.len())?;
    let mut images = Images::zeroed();
    images::take_map(&second, &mut images)?;
    images::take_map(&first, &mut images)?;
    let added = images::column(first.row, 1, 0, first.m);
    images::put_product(&images.image, added, &second, out, outrow);
    Ok(())
}

// The tests 1 and 2 on a map.
fn given_map<'a>(m: u32, table: &'a [u8], row: &'a [u8]) -> Result<Map<'a>, Refusal>
    ensures { MatchResult result
        (λ map. Given m table.now row.now map.m map.table.now map.row.now)
        (λ why. NotGiven m (length table.now) (length row.now) why) }
{
    if Code::LARGEST_M < m {
        return Err(Refusal::Parameters);
    }
    Map::new(m, table, row).ok_or(Refusal::InputLength)
}

// The test 3, for a map of which the table and the row are lent.
fn test_room(m: u32, table: usize, row: usize) -> Result<(), Refusal>
    ensures { MatchResult result (λ done. is_long m table row ≡ true)
        (λ why. (why ≡ OutputLength) × (is_long m table row ≡ false)) }
{
    if images::is_long(m, table, row) {
        Ok(())
    } else {
        Err(Refusal::OutputLength)
    }
}

// All tests in their order, and the work.
fn reorder_entries<T: Entry>(
    m: u32,
    table: &[u8],
    row: &[u8],
    entries: &[T],
    out: &mut [T],
) -> Result<(), Refusal>
    ensures { (d : T) → outcome_of result out.new
        ≡ reordering_entries d T.size T.limit m table.now row.now entries.now
        out.old }
{
    let map = given_map(m, table, row)?;
    let n = 1 << map.m;
    if entries.len() != n {
        return Err(Refusal::InputLength);
    }
    if out.len() != n {
        return Err(Refusal::OutputLength);
    }
    let mut images = Images::zeroed();
    images::take_map(&map, &mut images)?;
    T::test(entries)?;
    let added = images::column(map.row, 1, 0, map.m);
    images::move_entries(&images.image, added, entries, out);
    Ok(())
}
