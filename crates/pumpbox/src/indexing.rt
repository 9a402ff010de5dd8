// The C exports of an index (docs/RULES.md, §14): making it, for a whole capture or for its front;
// asking it for a record; appending a record.
ghost use Rattle.std.specs.Prelude.{◌≡◌, [], ◌∷◌};
ghost use Rattle.index.specs.Finding.{header_in, part_in, part_start};
ghost use Rattle.index.specs.Making.{making};
ghost use Rattle.index.specs.Fronting.{fronting};
ghost use Rattle.index.specs.Appending.{appending};
ghost use Rattle.answers.specs.Reported.{reported};
ghost use Rattle.answers.specs.Indexed.{index_in, shown_made, shown_front, shown_entry};
ghost use Rattle.answers.specs.Indexed.{shown_appended};

use answers::{put_appended, put_front, put_located, put_made};
use index::Index;

#[unsafe(no_mangle)]
pub extern "C" fn cinorbis_index_make(
    capture: &[u8],
    table: &mut [usize],
    out: &mut [u64; 2],
) -> u32
    ensures { reported result out.new (table.new ∷ []) ≡ shown_made (making capture.now table.old) }
{
    let answer = index::make(capture, table);
    put_made(answer, out)
}

#[unsafe(no_mangle)]
pub extern "C" fn cinorbis_index_front(
    capture: &[u8],
    table: &mut [usize],
    out: &mut [u64; 3],
) -> u32
    ensures { reported result out.new (table.new ∷ []) ≡ shown_front
        (fronting capture.now table.old) }
{
    let answer = index::front(capture, table);
    put_front(answer, out)
}

#[unsafe(no_mangle)]
pub extern "C" fn cinorbis_index_find(
    w: usize,
    capture: &[u8],
    table: &[usize],
    out: &mut [u64; 5],
) -> u32
    ensures { reported result out.new []
        ≡ shown_entry (header_in capture.now table.now w)
        (part_start capture.now table.now w)
        (part_in capture.now table.now w) }
{
    let answer = index::locate(capture, table, w);
    put_located(answer, out)
}

// The index that was passed.
fn taken(index: &[u64; 2]) -> Index
    ensures { result ≡ index_in index.now }
{
    Index {
        records: index[0] as usize,
        used: index[1] as usize,
    }
}

#[unsafe(no_mangle)]
pub extern "C" fn cinorbis_index_append(
    r: u32,
    m: u32,
    readings: &[i16],
    capture: &mut [u8],
    table: &mut [usize],
    index: &mut [u64; 2],
    out: &mut [u64; 2],
) -> u32
    ensures { reported result out.new (index.new
        ∷ capture.new ∷ table.new ∷ [])
        ≡ shown_appended index.old (appending (index_in index.old) r m
        readings.now capture.old table.old) }
{
    let before = taken(index);
    let answer = index::append(before, r, m, readings, capture, table);
    put_appended(answer, index, out)
}
