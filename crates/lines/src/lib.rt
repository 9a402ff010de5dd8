// The program's lines (docs/RULES.md, §8), written one after another into a lent buffer.
#![tactic(auto)]

ghost use Rattle.std.specs.Prelude.{◌≡◌, [], ◌∷◌, map, ◌++◌, ◌+◌, ◌≤◌, ◌<◌, length};
ghost use Rattle.words.specs.Bits.{Bits};
ghost use Rattle.lines.specs.Line.{digit_byte, decimal, Puts};
ghost use Rattle.lines.specs.Line.{info_text, figures_text};
ghost use Rattle.lines.specs.Line.{answer_line, refused_line, total_line};

use search::Found;

// The text that waits in a lent buffer, out[..at]; what is put comes after it.
// stays: write! hands back a Result, and these lines cannot fail
#[derive(Drop)]
pub struct Text<'a> {
    pub out: &'a mut [u8],
    pub at: usize,
}

impl Text<'_> {
    fn put_text(&mut self, text: &[u8])
        requires { self.old.at + length text.now ≤ length self.old.out.now }
        ensures { Puts self.old self.new text.now }
    {
        let end = self.at + text.len();
        bit_rows::copy(text, &mut self.out[self.at..end]);
        self.at = end;
    }

    fn put_bits(&mut self, bits: &[u8])
        requires { Bits bits.now × (self.old.at + length bits.now ≤ length self.old.out.now) }
        ensures { Puts self.old self.new (map digit_byte bits.now) }
    {
        for (i, bit) in bits.iter().enumerate() {
            self.out[self.at + i] = b'0' + *bit;
        }
        self.at += bits.len();
    }

    fn put_number(&mut self, n: u64)
        requires { self.old.at + 20 ≤ length self.old.out.now }
        ensures puts { Puts self.old self.new (decimal n) }
        ensures upper_bound { self.new.at ≤ self.old.at + 20 }
    {
        let mut digits = [0u8; 20];
        let k = io::decimal(n, &mut digits);
        self.put_text(&digits[0..k]);
    }

    // A text and a number after it.
    fn put_field(&mut self, text: &[u8], n: u64)
        requires { self.old.at + (length text.now + 20) ≤ length self.old.out.now }
        ensures puts { Puts self.old self.new (text.now ++ decimal n) }
        ensures upper_bound { self.new.at ≤ self.old.at + (length text.now + 20) }
    {
        self.put_text(text);
        self.put_number(n);
    }

    fn put_info(&mut self, w: u64, bits: &[u8])
        requires { Bits bits.now
            × (self.old.at + (length bits.now + 26) ≤ length self.old.out.now) }
        ensures puts { Puts self.old self.new (info_text w bits.now) }
        ensures upper_bound { self.new.at ≤ self.old.at + (length bits.now + 26) }
    {
        self.put_number(w);
        self.put_text(b" info ");
        self.put_bits(bits);
    }

    fn put_figures(&mut self, found: Found)
        requires { self.old.at + 86 ≤ length self.old.out.now }
        ensures puts { Puts self.old self.new
            (figures_text found.penalty found.gap found.visits) }
        ensures upper_bound { self.new.at ≤ length self.old.out.now }
    {
        self.put_field(b" penalty ", u64::from(found.penalty));
        self.put_field(b" margin ", u64::from(found.gap));
        self.put_field(b" visits ", u64::from(found.visits));
        self.put_text(b"\n");
    }

    // The line of record w that was answered.
    pub fn put_answer(&mut self, w: u64, bits: &[u8], found: Found)
        requires { Bits bits.now
            × (self.old.at + (length bits.now + 112) ≤ length self.old.out.now) }
        ensures puts { Puts self.old self.new
            (answer_line w bits.now found.penalty found.gap found.visits) }
        ensures upper_bound { self.new.at ≤ length self.old.out.now }
    {
        self.put_info(w, bits);
        self.put_figures(found);
    }

    // Two numbers, with a text between them and one at the end.
    fn put_numbers(&mut self, m: u64, between: &[u8], n: u64, last: &[u8])
        requires { self.old.at + (length between.now + length last.now + 40)
            ≤ length self.old.out.now }
        ensures puts { Puts self.old self.new
            (decimal m ++ between.now ++ decimal n ++ last.now) }
        ensures upper_bound { self.new.at
            ≤ self.old.at + (length between.now + length last.now + 40) }
    {
        self.put_number(m);
        self.put_field(between, n);
        self.put_text(last);
    }

    // The line of record w that was refused with the number why.
    pub fn put_refused(&mut self, w: u64, why: u32)
        requires { self.old.at + 50 ≤ length self.old.out.now }
        ensures puts { Puts self.old self.new (refused_line w why) }
        ensures upper_bound { self.new.at ≤ length self.old.out.now }
    {
        self.put_numbers(w, b" refused ", u64::from(why), b"\n");
    }

    pub fn put_total(&mut self, read: u64, refused: u64)
        requires { self.old.at + 56 ≤ length self.old.out.now }
        ensures puts { Puts self.old self.new (total_line read refused) }
        ensures upper_bound { self.new.at ≤ length self.old.out.now }
    {
        self.put_numbers(read, b" read, ", refused, b" refused\n");
    }
}
