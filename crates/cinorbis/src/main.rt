// The program: records in, lines out. Only here are the standard streams read and written. What
// they are given, and what is done with their answers, is decided by functions on slices.
#![tactic(auto)]

ghost use Rattle.std.specs.Prelude.{◌≡◌, ◌+◌, ◌-◌, ◌^◌, ◌≤◌, ◌<◌, length};
ghost use Rattle.rounds.specs.Situation.{room, longest, Ready, Flushed, Refilled};
ghost use Rattle.rounds.specs.Situation.{next_of, text_of};
ghost use Rattle.cinorbis.specs.Runs.{RoundTaken, Ran};
ghost use Rattle.cinorbis.specs.Streams.{WrittenOn, ReadOn, Streamed, Whole};

use rounds::{Next, Situation};
use std::io::{Read, Write};

#[derive(Drop)]
struct Streams<R, W, E> {
    from: R,
    to: W,
    errors: E,
}

// Where the bytes of a reader or a writer are known, the second clause of each function here says
// what it did to them.
impl<R: Read, W: Write, E: Write> Streams<R, W, E> {
    // Hands the text that waits to the writer.
    fn flush(&mut self, output: &[u8], s: &mut Situation)
        requires { s.old.text ≤ length output.now }
        ensures flushed { Flushed s.old s.new }
        ensures written { WrittenOn s.new (text_of s.old output.now)
            (W.contents self.old.to) (W.contents self.new.to) }
        ensures reader { self.new.from ≡ self.old.from }
    {
        let done = self.to.write_all(s.text_of(output)).is_ok();
        s.after_write(done);
        let said = s.complaint(b"cinorbis: cannot write\n");
        let _ = self.errors.write_all(said);
    }

    // Reads into the room after the bytes that are not yet used.
    fn refill(&mut self, input: &mut [u8], s: &mut Situation)
        requires { (s.old.at ≤ s.old.«end») × (s.old.«end» ≤ length input.old)
            × (s.old.«end» - s.old.at < length input.old) }
        ensures refilled { Refilled s.old input.old s.new input.new }
        ensures read { ReadOn s.old s.new input.new
            (R.remaining self.old.from) (R.remaining self.new.from) }
        ensures writer { self.new.to ≡ self.old.to }
    {
        let k = s.end - s.at;
        s.move_to_front(input);
        let got = self.from.read(&mut input[k..]).ok();
        s.after_read(got, &input[k..]);
        let said = s.complaint(b"cinorbis: cannot read\n");
        let _ = self.errors.write_all(said);
    }

    fn round(&mut self, input: &mut [u8], output: &mut [u8], s: &mut Situation)
        requires { Ready s.old input.old output.old
            × (longest ≤ length input.old) × (s.old.read + s.old.refused + 1 < 2 ^ 64) }
        ensures taken { RoundTaken s.old input.old output.old s.new
            input.new output.new }
        ensures streamed { Streamed (next_of s.old input.old (length output.old)) s.old s.new
            output.old input.new
            (R.remaining self.old.from) (R.remaining self.new.from)
            (W.contents self.old.to) (W.contents self.new.to) }
    {
        match s.next_round(input, output.len()) {
            Next::Write => self.flush(output, s),
            Next::Take => s.take_record(input, output),
            Next::Total => s.finish(output),
            Next::Read => self.refill(input, s),
        }
    }

    // Nothing says that the input ends, so the rounds are counted, up to a number that only more
    // than 2^62 bytes reach. A run that has ended without an error has written the output of all
    // bytes of its reader.
    fn run(&mut self, input: &mut [u8], output: &mut [u8]) -> Situation
        requires { (longest ≤ length input.old) × (room ≤ length output.old) }
        ensures ran { Ran result input.new output.new }
        ensures whole { Whole result
            (R.remaining self.old.from) (W.contents self.old.to) (W.contents self.new.to) }
    {
        let mut s = Situation::start();
        for _ in 0..u64::MAX {
            if !s.going {
                return s;
            }
            self.round(input, output, &mut s);
        }
        s
    }
}

fn main(rt: HostRuntime) {
    let mut input = io::large_buffer();
    let mut output = io::large_buffer();
    let mut streams = Streams {
        from: rt.stdin(),
        to: rt.stdout(),
        errors: rt.stderr(),
    };
    streams.run(&mut input, &mut output);
}
