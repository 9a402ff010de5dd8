// The program's work on one record (docs/RULES.md, §8), on slices: it is searched, and its line is
// written.
#![tactic(auto)]

ghost use Rattle.std.specs.Prelude.{◌≡◌, ◌+◌, ◌^◌, ◌≤◌, ◌<◌, length};
ghost use Rattle.words.specs.Bits.{Bits};
ghost use Rattle.words.specs.Kinds.{dimension};
ghost use Rattle.record.specs.Reader.{header_of};
ghost use Rattle.program.specs.Program.{Result, result_of, next_start};
ghost use Rattle.program.specs.Step.{became_of, Stepped};

use code::{Code, Refusal};
use lines::Text;
use search::Found;

// The program's own allowance.
const ALLOWANCE: u32 = 1000000;

// What became of a record.
#[derive(Clone, Copy)]
pub enum Became {
    Answered,
    Refused,
    // refused, and the next start is not known
    Last,
}

impl Became {
    fn after(why: Refusal) -> Became
        ensures { result ≡ became_of (Result.refused why) }
    {
        if matches!(why, Refusal::Parameters | Refusal::Torn) {
            return Became::Last;
        }
        Became::Refused
    }
}

#[derive(Clone, Copy)]
pub struct Step {
    // the next record starts this many bytes further on
    pub taken: usize,
    pub became: Became,
}

// Record w, which the bytes begin with.
#[derive(Clone, Copy)]
struct Record<'a> {
    w: u64,
    bytes: &'a [u8],
    ghost some: { 0 < length bytes.now },
}

impl Record<'_> {
    // How far on the next one starts, or 0 if that is not known.
    fn length(&self) -> usize
        ensures { result ≡ next_start self.now.bytes.now }
    {
        record::record_length(self.bytes[0])
    }

    fn refuse(&self, why: Refusal, text: &mut Text) -> Step
        requires { text.old.at + 512 ≤ length text.old.out.now }
        ensures { Stepped self.now.w self.now.bytes.now (Result.refused why)
            text.old result text.new }
    {
        text.put_refused(self.w, why.shown().number);
        Step {
            taken: self.length(),
            became: Became::after(why),
        }
    }

    fn report(&self, bits: &[u8], found: Found, text: &mut Text) -> Step
        requires { Bits bits.now × (length bits.now ≤ 256)
            × (text.old.at + 512 ≤ length text.old.out.now) }
        ensures { Stepped self.now.w self.now.bytes.now
            (Result.answered bits.now found.penalty found.gap found.visits)
            text.old result text.new }
    {
        text.put_answer(self.w, bits, found);
        Step {
            taken: self.length(),
            became: Became::Answered,
        }
    }

    // The record's code is sound, and the lent buffers have the code's lengths.
    fn search_into(&self, code: Code, bits: &mut [u8], word: &mut [u8], text: &mut Text) -> Step
        requires s_value { (header_of self.now.bytes.now ≡ Ok code)
            × (length bits.old ≡ dimension code.r code.m)
            × (length word.old ≡ 2 ^ code.m) }
        requires room { (length bits.old ≤ 256)
            × (text.old.at + 512 ≤ length text.old.out.now) }
        ensures { Stepped self.now.w self.now.bytes.now (result_of self.now.bytes.now)
            text.old result text.new }
    {
        let answer = record::search_framed(self.bytes, code, ALLOWANCE, bits, word);
        // the line says nothing about the runner-up
        let result = answer.result;
        match result {
            Ok(found) => self.report(bits, found, text),
            Err(why) => self.refuse(why, text),
        }
    }

    fn search(&self, code: Code, text: &mut Text) -> Step
        requires { (header_of self.now.bytes.now ≡ Ok code)
            × (text.old.at + 512 ≤ length text.old.out.now) }
        ensures { Stepped self.now.w self.now.bytes.now (result_of self.now.bytes.now)
            text.old result text.new }
    {
        let mut bits = [0u8; 256];
        let mut word = [0u8; 256];
        let k = code.dimension();
        let n = code.length();
        self.search_into(code, &mut bits[0..k], &mut word[0..n], text)
    }
}

// Puts the line of record w, which the bytes begin with.
pub fn one(w: u64, bytes: &[u8], text: &mut Text) -> Step
    requires { (0 < length bytes.now) × (text.old.at + 512 ≤ length text.old.out.now) }
    ensures { Stepped w bytes.now (result_of bytes.now) text.old result text.new }
{
    let record = Record { w, bytes };
    match record::header_of(bytes) {
        Ok(code) => record.search(code, text),
        Err(why) => record.refuse(why, text),
    }
}
