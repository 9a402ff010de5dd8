// Maps of positions at work (docs/RULES.md, §12): the images of all positions, in one array of 256,
// and columns of tables.
#![tactic(auto)]

ghost use Rattle.std.specs.Prelude.{◌≡◌, [], ◌+◌, ◌*◌, ◌^◌, ◌%◌, ◌/◌, ◌≤◌, ◌<◌, length, get_or};
ghost use Rattle.std.specs.Prelude.{false, replicate, MatchOption, MatchResult};
ghost use Rattle.words.specs.Bits.{Bits};
ghost use Rattle.code.specs.declared.Refusal.TheVariants as Refusal;
ghost use Rattle.code.specs.Sound.{largest_m};
ghost use Rattle.code.specs.Entries.{first_bad_bit};
ghost use Rattle.maps.specs.Maps.{number, image, all_apart};
ghost use Rattle.images.specs.Images.{is_long, MapMade, Shows, Doubled, Placed, Mapped};
ghost use Rattle.images.specs.Images.{Taken, NotTaken};
ghost use Rattle.images.specs.Images.{Moves, moved, spread_of, UndoPut, ProductPut};

use code::Refusal;

// A map of positions: an m by m table of bytes, row by row, and a row of m bytes.
#[derive(Clone, Copy)]
pub struct Map<'a> {
    pub m: usize,
    pub table: &'a [u8],
    pub row: &'a [u8],
    ghost mapped: { Mapped m table.now row.now },
}

// The image of each position, without the row, and the position that has each image.
#[derive(Drop)]
pub struct Images {
    pub image: [u8; 256],
    pub place: [u8; 256],
}

impl<'a> Map<'a> {
    // The map, if the lengths are those of one.
    pub fn new(m: u32, table: &'a [u8], row: &'a [u8]) -> Option<Map<'a>>
        requires { m ≤ largest_m }
        ensures { MatchOption result (is_long m (length table.now) (length row.now) ≡ false)
            (λ map. MapMade m table.now row.now map.m map.table.now map.row.now) }
    {
        if is_long(m, table.len(), row.len()) {
            Some(Map {
                m: m as usize,
                table,
                row,
            })
        } else {
            None
        }
    }
}

impl Images {
    // Of no map yet.
    pub fn zeroed() -> Images
        ensures { (result.image ≡ replicate 256 0) × (result.place ≡ replicate 256 0) }
    {
        Images {
            image: [0; 256],
            place: [0; 256],
        }
    }
}

// Whether a table of this many bytes is m by m, and a row of this many m long.
pub fn is_long(m: u32, table: usize, row: usize) -> bool
    ensures { result ≡ is_long m table row }
{
    let m = m as usize;
    (table == m * m) & (row == m)
}

// The number whose bit p is the entry at row p and column q of a table of m rows.
// stays: Bits in clauses, since put_undo asks it of a row alone, and a type of maps a table too
pub fn column(table: &[u8], width: usize, q: usize, m: usize) -> u8
    requires { (m ≤ largest_m) × (q < width)
        × (length table.now ≡ m * width) × Bits table.now }
    ensures { result ≡ number m (λ p. get_or table.now (p * width + q) 0) }
{
    let mut x = 0;
    for p in 0..m {
        x += table[p * width + q] << p;
    }
    x
}

// The first h images repeated, with a column added: those of the positions h further on.
fn add_column(images: &mut [u8; 256], h: usize, column: u8)
    requires { h + h ≤ 256 }
    ensures { Doubled h h column images.old images.new }
{
    for i in 0..h {
        images[h + i] = images[i] ^ column;
    }
}

// The images of all positions under the table without the row.
fn put_images(map: &Map<'_>, images: &mut [u8; 256])
    requires { Bits map.now.table.now }
    ensures { Shows (image map.now.m map.now.table.now []) (2 ^ map.now.m) images.new }
{
    images[0] = 0;
    for q in 0..map.m {
        add_column(images, 1 << q, column(map.table, map.m, q, map.m));
    }
}

// The position that has each image; the highest where several have it.
fn put_places(n: usize, images: &[u8; 256], places: &mut [u8; 256])
    requires { n ≤ 256 }
    ensures { Placed n images.now places.new }
{
    places.fill(0);
    for j in 0..n {
        places[usize::from(images[j])] = j as u8;
    }
}

// Whether no two positions have the same image.
fn all_apart(n: usize, images: &[u8; 256], places: &[u8; 256]) -> bool
    requires { (n ≤ 256) × Placed n images.now places.now }
    ensures { result ≡ all_apart (λ j. get_or images.now j 0) n }
{
    for j in 0..n {
        if usize::from(places[usize::from(images[j])]) != j {
            return false;
        }
    }
    true
}

// Whether a map may have these bytes.
fn only_bits(bits: &[u8]) -> Result<(), Refusal>
    ensures { MatchResult result (λ done. length bits.now ≤ first_bad_bit bits.now)
        (λ why. (first_bad_bit bits.now < length bits.now) × (why ≡ Refusal.Map)) }
{
    code::test_bits(bits).map_err(|_| Refusal::Map)
}

// The images of a map that can be undone, without its row, and their places.
pub fn take_map(map: &Map<'_>, images: &mut Images) -> Result<(), Refusal>
    ensures { MatchResult result
        (λ done. Taken map.now.m map.now.table.now map.now.row.now
        images.new.image images.new.place)
        (λ why. NotTaken map.now.m map.now.table.now map.now.row.now why) }
{
    only_bits(map.table)?;
    only_bits(map.row)?;
    let n = 1 << map.m;
    put_images(map, &mut images.image);
    put_places(n, &images.image, &mut images.place);
    if all_apart(n, &images.image, &images.place) {
        Ok(())
    } else {
        Err(Refusal::Map)
    }
}

// Position j gets the entry at its image, with x added.
pub fn move_entries<T: Copy>(images: &[u8], x: u8, from: &[T], to: &mut [T])
    requires { Moves images.now x from.now to.old }
    ensures { (d : T) → to.new ≡ moved d x images.now from.now }
{
    for j in 0..to.len() {
        to[j] = from[usize::from(images[j] ^ x)];
    }
}

// Fills a table with its columns: bit p of column q goes to row p.
fn spread(columns: &[u8; 8], width: usize, table: &mut [u8])
    requires { (width ≤ 8) × (length table.old ≤ largest_m * width) }
    ensures { table.new
        ≡ spread_of columns.now width (length table.old) }
{
    for (i, bit) in table.iter_mut().enumerate() {
        *bit = (columns[i % width] >> (i / width)) % 2;
    }
}

// The columns of the undo table: the positions whose images are the powers of 2.
fn undo_columns(m: usize, places: &[u8; 256], columns: &mut [u8; 8])
    requires { m ≤ largest_m }
    ensures { Shows (λ q. get_or places.now (2 ^ q) 0) m columns.new }
{
    for q in 0..m {
        columns[q] = places[1 << q];
    }
}

// The undo map, by the places: its row is the position whose image is the row.
// stays: out and outrow, since clauses on a struct of both would have to say that it still
// lends them
pub fn put_undo(m: usize, places: &[u8; 256], row: &[u8], out: &mut [u8], outrow: &mut [u8])
    requires { Mapped m out.old outrow.old × (length row.now ≡ m) × Bits row.now }
    ensures { UndoPut m places.now row.now
        out.new outrow.new }
{
    let mut columns = [0; 8];
    undo_columns(m, places, &mut columns);
    spread(&columns, m, out);
    columns[0] = places[usize::from(column(row, 1, 0, m))];
    spread(&columns, 1, outrow);
}

// The columns of a product: the images of the second table's.
fn product_columns(images: &[u8; 256], second: &Map<'_>, columns: &mut [u8; 8])
    requires { Bits second.now.table.now }
    ensures { let second = second.now in Shows (λ q. get_or images.now
        (number second.m (λ p. get_or second.table.now (p * second.m + q) 0)) 0) second.m
        columns.new }
{
    for q in 0..second.m {
        columns[q] = images[usize::from(column(second.table, second.m, q, second.m))];
    }
}

// The product of two maps, by the images of the first without its row, x, and the second.
pub fn put_product(images: &[u8; 256], x: u8, second: &Map<'_>, out: &mut [u8], outrow: &mut [u8])
    requires { Mapped second.now.m out.old outrow.old
        × Bits second.now.table.now × Bits second.now.row.now }
    ensures { ProductPut second.now.m images.now x second.now.table.now second.now.row.now
        out.new outrow.new }
{
    let mut columns = [0; 8];
    product_columns(images, second, &mut columns);
    spread(&columns, second.m, out);
    columns[0] = images[usize::from(column(second.row, 1, 0, second.m))] ^ x;
    spread(&columns, 1, outrow);
}
