// The program's state between two rounds, and all that it does between two calls of the
// operating system: functions of the bytes and of what the last call answered.
#![tactic(auto)]

ghost use Rattle.std.specs.Prelude.{◌≡◌, ◌++◌, ◌+◌, ◌-◌, ◌^◌, ◌≤◌, ◌<◌, length, take, drop};
ghost use Rattle.rounds.specs.Situation.{starting, room, is_there, next_of, counted_by};
ghost use Rattle.rounds.specs.Situation.{Took, Finished, after_read};
ghost use Rattle.rounds.specs.Situation.{text_of, after_write, complaint_of};

use lines::Text;
use program::{Became, Step};

// The longest line fits, and so does the total.
const ROOM: usize = 512;

// stays: after_write takes any Situation: at <= end as a ghost field, or an enum for the flags,
// which leaves out some of their values, would ask more of its callers
#[derive(Clone, Copy)]
pub struct Situation {
    // the bytes that are read and not yet used are input[at..end]
    pub at: usize,
    pub end: usize,
    // no byte after these will be used
    pub ended: bool,
    // output[..text] waits to be written
    pub text: usize,
    pub read: u64,
    pub refused: u64,
    // the total is at the end of the text
    pub closed: bool,
    pub going: bool,
    // the operating system reported an error
    pub failed: bool,
}

// What a round does.
#[derive(Clone, Copy)]
pub enum Next {
    Write,
    Take,
    Total,
    Read,
}

impl Situation {
    pub fn start() -> Situation
        ensures { result ≡ starting }
    {
        Situation {
            at: 0,
            end: 0,
            ended: false,
            text: 0,
            read: 0,
            refused: 0,
            closed: false,
            going: true,
            failed: false,
        }
    }

    // Whether the next record is there, or all that will come of it.
    fn is_there(&self, input: &[u8]) -> bool
        requires { (self.now.at ≤ self.now.«end») × (self.now.«end» ≤ length input.now) }
        ensures { result ≡ is_there self.now input.now }
    {
        if self.at == self.end {
            return false;
        }
        if self.ended {
            return true;
        }
        record::record_length(input[self.at]) <= self.end - self.at
    }

    // For an output of this many bytes.
    pub fn next_round(&self, input: &[u8], output: usize) -> Next
        requires { (self.now.at ≤ self.now.«end») × (self.now.«end» ≤ length input.now)
            × (self.now.text ≤ output) }
        ensures { result ≡ next_of self.now input.now output }
    {
        if self.closed {
            return Next::Write;
        }
        if output - self.text < ROOM {
            return Next::Write;
        }
        if self.is_there(input) {
            return Next::Take;
        }
        if self.ended {
            return Next::Total;
        }
        // what waits is written before the program waits for input
        if 0 < self.text {
            return Next::Write;
        }
        Next::Read
    }

    fn count(&mut self, step: Step)
        requires { (self.old.at + step.taken < 2 ^ 64)
            × (self.old.read + 1 < 2 ^ 64) × (self.old.refused + 1 < 2 ^ 64) }
        ensures { self.new ≡ counted_by self.old step }
    {
        self.at += step.taken;
        match step.became {
            Became::Answered => self.read += 1,
            Became::Refused => self.refused += 1,
            Became::Last => {
                self.refused += 1;
                self.at = self.end;
                self.ended = true;
            }
        }
    }

    // Takes the next record.
    pub fn take_record(&mut self, input: &[u8], output: &mut [u8])
        requires { (self.old.at < self.old.«end») × (self.old.«end» ≤ length input.now)
            × (self.old.text + room ≤ length output.old)
            × (self.old.read + self.old.refused + 1 < 2 ^ 64) }
        ensures { Took self.old input.now output.old self.new output.new }
    {
        let mut text = Text {
            out: output,
            at: self.text,
        };
        let w = self.read + self.refused;
        let step = program::one(w, &input[self.at..self.end], &mut text);
        self.text = text.at;
        self.count(step);
    }

    // Puts the total after the lines that wait.
    pub fn finish(&mut self, output: &mut [u8])
        requires { self.old.text + room ≤ length output.old }
        ensures { Finished self.old output.old self.new output.new }
    {
        let mut text = Text {
            out: output,
            at: self.text,
        };
        text.put_total(self.read, self.refused);
        self.text = text.at;
        self.closed = true;
    }

    // Moves the unread bytes to the front.
    pub fn move_to_front(&self, buffer: &mut [u8])
        requires { (self.now.at ≤ self.now.«end») × (self.now.«end» ≤ length buffer.old) }
        ensures { buffer.new
            ≡ take (self.now.«end» - self.now.at) (drop self.now.at buffer.old)
            ++ drop (self.now.«end» - self.now.at) buffer.old }
    {
        buffer.copy_within(self.at..self.end, 0);
    }

    // After a read into `fresh`, the bytes after the unread ones, gave so many, or failed.
    pub fn after_read(&mut self, got: Option<usize>, fresh: &[u8])
        requires { (self.old.at ≤ self.old.«end»)
            × (self.old.«end» - self.old.at + length fresh.now < 2 ^ 64) }
        ensures { self.new ≡ after_read got (length fresh.now) self.old }
    {
        self.end -= self.at;
        self.at = 0;
        match got {
            None => {
                self.going = false;
                self.failed = true;
            }
            Some(0) => self.ended = true,
            Some(n) => self.end += n.min(fresh.len()),
        }
    }

    // The text that is handed to the writer next.
    pub fn text_of<'a>(&self, output: &'a [u8]) -> &'a [u8]
        requires { self.now.text ≤ length output.now }
        ensures { result.now ≡ text_of self.now output.now }
    {
        &output[..self.text]
    }

    // After the text that waits was handed to the writer; done says whether it was written.
    pub fn after_write(&mut self, done: bool)
        ensures { self.new ≡ after_write done self.old }
    {
        self.text = 0;
        self.going = done && !self.closed;
        if !done {
            self.failed = true;
        }
    }

    // What is written to standard error: the text if an error was reported, else nothing.
    pub fn complaint<'a>(&self, text: &'a [u8]) -> &'a [u8]
        ensures { result.now ≡ complaint_of text.now self.now }
    {
        if self.failed {
            return text;
        }
        &text[..0]
    }
}
