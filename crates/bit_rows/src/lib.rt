// On lent bytes: fold, the in-place transform, filling a row with information bits and taking
// them back.
// stays: slices of bits beside an m or their kinds, as C lends them: a struct of them would be
// built and taken apart at each call.
#![tactic(auto)]

ghost use Rattle.std.specs.Prelude.{◌≡◌, ◌+◌, ◌*◌, ◌-◌, ◌^◌, ◌/◌, ◌%◌, ◌≤◌, ◌<◌, ◌++◌, ltb, length};
ghost use Rattle.std.specs.Prelude.{take, drop};
ghost use Rattle.numbers.specs.Sums.{sum};
ghost use Rattle.words.specs.Bits.{Bits};
ghost use Rattle.words.specs.Word.{transform};
ghost use Rattle.words.specs.Kinds.{kinds, fill, pick};
ghost use Rattle.words.specs.Inverse.{first_frozen_one};
ghost use Rattle.code.specs.Sound.{largest_m};
ghost use Rattle.bit_rows.specs.Fold.{folded};
ghost use Rattle.bit_rows.specs.Layers.{on_front, blocks, Steps, layer, layers};
ghost use Rattle.bit_rows.specs.Eight.{packed, unpacked, bytes_added, pairs_added, fours_added};
ghost use Rattle.bit_rows.specs.EightKinds.{eight_kinds, Fillable};
ghost use Rattle.bit_rows.specs.Pick.{Pickable, pick_front};
ghost use Rattle.bit_rows.specs.Takeable.{Takeable};
ghost use Rattle.bit_rows.specs.FrozenOne.{found_frozen_one};

// Adds the second h bits of a word into its first h, modulo 2; the word may be longer.
pub fn fold(word: &mut [u8], h: usize)
    requires { (h + h ≤ length word.old) × Bits word.old }
    ensures { word.new ≡ folded h word.old }
{
    for j in 0..h {
        word[j] = (word[j] + word[h + j]) % 2;
    }
}

// Folds each block of 2h bits: the word from the block's start on is lent to be folded.
fn fold_blocks(word: &mut [u8], h: usize, blocks: usize)
    requires { Steps h word.old × (blocks ≡ length word.old / (h + h)) }
    ensures { word.new ≡ layer h word.old }
{
    for k in 0..blocks {
        fold(&mut word[(h + h) * k..], h);
    }
}

// One layer. The compiler unrolls the fold of a block where its step is a constant; only words of
// fewer than eight bits have other steps.
// stays: a const parameter needs the same arms, and a second function for the other steps
fn layer(word: &mut [u8], h: usize, blocks: usize)
    requires { Steps h word.old × (blocks ≡ length word.old / (h + h)) }
    ensures { word.new ≡ layer h word.old }
{
    match h {
        8 => fold_blocks(word, 8, blocks),
        16 => fold_blocks(word, 16, blocks),
        32 => fold_blocks(word, 32, blocks),
        64 => fold_blocks(word, 64, blocks),
        128 => fold_blocks(word, 128, blocks),
        _ => fold_blocks(word, h, blocks),
    }
}

// The layers of steps 2^from, .., 2^(m - 1), one after the other.
fn layers(word: &mut [u8], from: usize, m: usize)
    requires { (from ≤ m) × (length word.old ≡ 2 ^ m) × Bits word.old }
    ensures { word.new
        ≡ layers (m - from) (2 ^ from) word.old }
{
    for t in from..m {
        layer(word, 1 << t, 1 << (m - 1 - t));
    }
}

// The first eight bytes as one number, the first byte lowest. The compiler makes one load of it,
// and vector code of a loop over such loads that has one end (`0..n / 8`; a `step_by` has two).
fn load(word: &[u8]) -> u64
    requires { 8 ≤ length word.now }
    ensures { result ≡ packed word.now }
{
    u64::from_le_bytes([
        word[0], word[1], word[2], word[3], word[4], word[5], word[6], word[7],
    ])
}

// Puts the eight bytes of a number in front. The compiler makes one store of it.
fn store(word: &mut [u8], x: u64)
    requires { 8 ≤ length word.old }
    ensures { word.new ≡ unpacked x ++ drop 8 word.old }
{
    copy(&x.to_le_bytes(), &mut word[0..8]);
}

// Eight bits, one in each byte of a number: the first three layers, by bytes, pairs and fours.
fn three_layers(x: u64) -> u64
    ensures { result ≡ fours_added (pairs_added (bytes_added x)) }
{
    let bytes = x ^ ((x >> 8) & 0x00ff00ff00ff00ff);
    let pairs = bytes ^ ((bytes >> 16) & 0x0000ffff0000ffff);
    pairs ^ (pairs >> 32)
}

// The transform of the first eight bits of a word.
fn eight(word: &mut [u8])
    requires { (8 ≤ length word.old) × Bits word.old }
    ensures { word.new ≡ on_front (transform 3) 8 word.old }
{
    let x = load(word);
    store(word, three_layers(x));
}

// The transform of each block of eight bits.
fn eights(word: &mut [u8])
    requires { Bits word.old }
    ensures { word.new ≡ blocks (transform 3) 8 word.old }
{
    for k in 0..word.len() / 8 {
        eight(&mut word[8 * k..]);
    }
}

// The transform of 2^m bits, in place, layer by layer; from eight bits on the first three layers
// are made at once.
pub fn transform(word: &mut [u8], m: usize)
    requires { (length word.old ≡ 2 ^ m) × Bits word.old }
    ensures { word.new ≡ transform m word.old }
{
    if m < 3 {
        layers(word, 0, m);
        return;
    }
    eights(word);
    layers(word, 3, m);
}

// One slice into another.
// stays: `copy_from_slice` compares addresses, which the build for 32 bits (tools/portable) refuses
pub fn copy<T: Copy>(from: &[T], to: &mut [T])
    requires { length to.old ≡ length from.now }
    ensures { to.new ≡ from.now }
{
    for (i, x) in from.iter().enumerate() {
        to[i] = *x;
    }
}

// The row u: the bits in rising order at the information indices, 0 at the frozen ones.
pub fn fill(kinds: &[u8], bits: &[u8], row: &mut [u8])
    requires { (length row.old ≡ length kinds.now) × (sum kinds.now ≤ length bits.now) }
    ensures { row.new ≡ fill kinds.now bits.now }
{
    let mut used = 0;
    for (i, kind) in kinds.iter().enumerate() {
        if *kind == 0 {
            row[i] = 0;
        } else {
            row[i] = bits[used];
            used += 1;
        }
    }
}

// Eight indices of which those with D ones or more carry information; how many bits they take.
// They are read into an array before one is written, and D is a constant, so that the compiler
// makes few loads and stores of them and leaves no loop.
fn put_eight<const D: u32>(bits: &[u8], row: &mut [u8]) -> usize
    requires { (length row.old ≡ 8) × (sum (eight_kinds D) ≤ length bits.now) }
    ensures { (row.new ≡ fill (eight_kinds D) bits.now)
        × (result ≡ sum (eight_kinds D)) }
{
    let mut eight = [0u8; 8];
    let mut used = 0;
    for j in 0..8usize {
        if D <= j.count_ones() {
            eight[j] = bits[used];
            used += 1;
        }
    }
    copy(&eight, row);
    used
}

// The same for a d that is not constant: four ones or more are in none of them.
// stays: a closure needs the same arms, since only a constant leaves no loop
fn fill_eight(d: u32, bits: &[u8], row: &mut [u8]) -> usize
    requires { (length row.old ≡ 8) × (sum (eight_kinds d) ≤ length bits.now) }
    ensures { (row.new ≡ fill (eight_kinds d) bits.now)
        × (result ≡ sum (eight_kinds d)) }
{
    match d {
        0 => put_eight::<0>(bits, row),
        1 => put_eight::<1>(bits, row),
        2 => put_eight::<2>(bits, row),
        3 => put_eight::<3>(bits, row),
        _ => put_eight::<4>(bits, row),
    }
}

// The row u of RM(r,m), eight indices at a time: only the ones of a block's start are counted.
pub fn fill_code(r: u32, m: u32, bits: &[u8], row: &mut [u8])
    requires { Fillable r m bits.now row.old }
    ensures { row.new ≡ fill (kinds r m) bits.now }
{
    let mut used = 0;
    for k in 0..row.len() / 8 {
        let s = 8 * k;
        let d = (m - r).saturating_sub(s.count_ones());
        used += fill_eight(d, &bits[used..], &mut row[s..s + 8]);
    }
}

// Copies what a row has at the information indices to the front of bits, one by one; gives how
// many they are.
fn pick_each(kinds: &[u8], row: &[u8], bits: &mut [u8]) -> usize
    requires { Pickable kinds.now row.now bits.old }
    ensures { (bits.new
        ≡ pick_front kinds.now row.now bits.old)
        × (result ≡ sum kinds.now) }
{
    let mut taken = 0;
    for (i, kind) in kinds.iter().enumerate() {
        if *kind != 0 {
            bits[taken] = row[i];
            taken += 1;
        }
    }
    taken
}

// The same for the first eight kinds. The five rows of eight that codes are made of are constants
// here, and the compiler leaves neither loop nor tests of them; any other eight keep both.
// stays: a closure needs the same arms
fn pick_eight(kinds: &[u8], row: &[u8], bits: &mut [u8]) -> usize
    requires { (8 ≤ length kinds.now) × Pickable kinds.now row.now bits.old }
    ensures { (bits.new
        ≡ pick_front (take 8 kinds.now) row.now bits.old)
        × (result ≡ sum (take 8 kinds.now)) }
{
    match load(kinds) {
        0x0101010101010101 => pick_each(&[1, 1, 1, 1, 1, 1, 1, 1], row, bits),
        0x0101010101010100 => pick_each(&[0, 1, 1, 1, 1, 1, 1, 1], row, bits),
        0x0101010001000000 => pick_each(&[0, 0, 0, 1, 0, 1, 1, 1], row, bits),
        0x0100000000000000 => pick_each(&[0, 0, 0, 0, 0, 0, 0, 1], row, bits),
        0 => pick_each(&[0, 0, 0, 0, 0, 0, 0, 0], row, bits),
        _ => pick_each(&kinds[0..8], row, bits),
    }
}

// The bits of a row at the information indices, eight indices at a time.
pub fn pick(kinds: &[u8], row: &[u8], bits: &mut [u8])
    requires { (length row.now ≡ length kinds.now)
        × (length bits.old ≡ sum kinds.now) × Bits kinds.now }
    ensures { bits.new ≡ pick kinds.now row.now }
{
    let eights = kinds.len() / 8;
    let mut taken = 0;
    for k in 0..eights {
        let at = 8 * k;
        taken += pick_eight(&kinds[at..], &row[at..], &mut bits[taken..]);
    }
    let at = 8 * eights;
    pick_each(&kinds[at..], &row[at..], &mut bits[taken..]);
}

// Whether the row is 1 at a frozen index: without an early end, so that many are tested at once.
fn some_frozen_one(kinds: &[u8], row: &[u8]) -> bool
    requires { length row.now ≡ length kinds.now }
    ensures { result ≡ ltb (first_frozen_one kinds.now row.now)
        (length kinds.now) }
{
    let mut some = false;
    for (i, kind) in kinds.iter().enumerate() {
        some = some | ((*kind == 0) & (row[i] != 0));
    }
    some
}

// The lowest frozen index where the row is 1, if there is one.
pub fn first_frozen_one(kinds: &[u8], row: &[u8]) -> Option<usize>
    requires { length row.now ≡ length kinds.now }
    ensures { result ≡ found_frozen_one kinds.now row.now }
{
    if !some_frozen_one(kinds, row) {
        return None;
    }
    for (i, kind) in kinds.iter().enumerate() {
        if *kind == 0 && row[i] != 0 {
            return Some(i);
        }
    }
    None
}

// The transform of the first sixteen bits of a word, put in front of a row: eight bits in each of
// two numbers, and the fourth layer between them.
fn put_sixteen(word: &[u8], row: &mut [u8])
    requires { (16 ≤ length word.now) × (16 ≤ length row.old) × Bits word.now }
    ensures { row.new
        ≡ transform 4 (take 16 word.now) ++ drop 16 row.old }
{
    let x = three_layers(load(word));
    let y = three_layers(load(&word[8..]));
    store(row, x ^ y);
    store(&mut row[8..], y);
}

// The transform of each block of sixteen bits of a word, in a row of its own.
// stays: not `eights` of another size, since a word that is read can't be lent to be written
fn put_sixteens(word: &[u8], row: &mut [u8])
    requires { (length row.old ≡ length word.now) × (length word.now % 16 ≡ 0)
        × Bits word.now }
    ensures { row.new ≡ blocks (transform 4) 16 word.now }
{
    for k in 0..word.len() / 16 {
        let at = 16 * k;
        put_sixteen(&word[at..], &mut row[at..]);
    }
}

// The row u that a word comes from: the transform is its own inverse. From sixteen bits on the
// first four layers are made at once, with no copy of the word before them.
pub fn put_row(word: &[u8], row: &mut [u8], m: usize)
    requires { (length word.now ≡ 2 ^ m) × (length row.old ≡ 2 ^ m) × Bits word.now }
    ensures { row.new ≡ transform m word.now }
{
    if m < 3 {
        copy(word, row);
        transform(row, m);
        return;
    }
    if m == 3 {
        store(row, three_layers(load(word)));
        return;
    }
    put_sixteens(word, row);
    layers(row, 4, m);
}

// The information bits of a word of at most 256 bits.
pub fn take_bits(kinds: &[u8], word: &[u8], bits: &mut [u8], m: usize)
    requires { (m ≤ largest_m) × Takeable m kinds.now word.now bits.old }
    ensures { bits.new
        ≡ pick kinds.now (transform m word.now) }
{
    let mut array = [0u8; 256];
    let row = &mut array[..word.len()];
    put_row(word, row, m);
    pick(kinds, row, bits);
}
