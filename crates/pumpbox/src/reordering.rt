// The C exports of position orders (docs/RULES.md, §12): reordering, undo maps and products.
ghost use Rattle.std.specs.Prelude.{◌≡◌};
ghost use Rattle.reorder.specs.Outcome.{reordering, reordering_word, undoing, multiplying};
ghost use Rattle.answers.specs.Reported.{reported};
ghost use Rattle.answers.specs.Reordered.{shown_reordered};

use answers::put_completed;

#[unsafe(no_mangle)]
pub extern "C" fn cinorbis_reorder(
    m: u32,
    table: &[u8],
    row: &[u8],
    readings: &[i16],
    out: &mut [i16],
    numbers: &mut [u64; 4],
) -> u32
    ensures { reported result numbers.new out.new
        ≡ shown_reordered (reordering m table.now row.now
        readings.now out.old) }
{
    let answer = reorder::reorder(m, table, row, readings, out);
    put_completed(answer, numbers)
}

#[unsafe(no_mangle)]
pub extern "C" fn cinorbis_reorder_word(
    m: u32,
    table: &[u8],
    row: &[u8],
    word: &[u8],
    out: &mut [u8],
    numbers: &mut [u64; 4],
) -> u32
    ensures { reported result numbers.new out.new
        ≡ shown_reordered (reordering_word m table.now row.now
        word.now out.old) }
{
    let answer = reorder::reorder_word(m, table, row, word, out);
    put_completed(answer, numbers)
}

#[unsafe(no_mangle)]
pub extern "C" fn cinorbis_undo_map(
    m: u32,
    table: &[u8],
    row: &[u8],
    out: &mut [u8],
    outrow: &mut [u8],
    numbers: &mut [u64; 4],
) -> u32
    ensures { reported result numbers.new
        (out.new, outrow.new)
        ≡ shown_reordered (undoing m table.now row.now
        out.old outrow.old) }
{
    let answer = reorder::undo_map(m, table, row, out, outrow);
    put_completed(answer, numbers)
}

#[unsafe(no_mangle)]
pub extern "C" fn cinorbis_product_map(
    m: u32,
    table1: &[u8],
    row1: &[u8],
    table2: &[u8],
    row2: &[u8],
    out: &mut [u8],
    outrow: &mut [u8],
    numbers: &mut [u64; 4],
) -> u32
    ensures { reported result numbers.new
        (out.new, outrow.new)
        ≡ shown_reordered (multiplying m table1.now row1.now
        table2.now row2.now out.old outrow.old) }
{
    let answer = reorder::product_map(m, table1, row1, table2, row2, out, outrow);
    put_completed(answer, numbers)
}
