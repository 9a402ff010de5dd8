// What C gets of an answer: its values go into the numbers that C lends, in the order of the
// header's structs, and its number is returned, which is 0 or a refusal's.
#![tactic(auto)]

ghost use Rattle.std.specs.Prelude.{◌≡◌, [], ◌∷◌};
ghost use Rattle.code.specs.Sound.{carried, completed};
ghost use Rattle.guarded.specs.Faults.{fault_carries};
ghost use Rattle.telegram.specs.Outcome as Tilt;
ghost use Rattle.rod.specs.Outcome as Rod;
ghost use Rattle.answers.specs.Reported.{numbers, reported};
ghost use Rattle.answers.specs.Answers.{read_number, read_numbers};
ghost use Rattle.answers.specs.Answers.{searched_number, searched_numbers};
ghost use Rattle.answers.specs.Answers.{header_number, header_numbers};
ghost use Rattle.answers.specs.EarlyLaws.{answered_number, answered_numbers};
ghost use Rattle.answers.specs.Indexed.{pair, indexed_number, made_numbers};
ghost use Rattle.answers.specs.Indexed.{entry_numbers, found_number, found_numbers};
ghost use Rattle.answers.specs.Indexed.{appended_numbers, pair_after};
ghost use Rattle.answers.specs.Indexed.{fronted_number, fronted_numbers};
ghost use Rattle.answers.specs.Written.{wrote_number, wrote_numbers};
ghost use Rattle.answers.specs.Guarded.{written_number, fields, shown_read, shown_rod};

use code::{Code, Refusal};
use guarded::Fault;
use index::{FrontIndex, Index, Located};
use search::{Found, WithRunnerUp};
use telegram::Heard;

// Penalty, gap, visits and place.
// stays: `as u64` at a usize, here and below, since no From gives a u64 of it
pub fn put_numbers(out: &mut [u64; 4], penalty: u32, gap: u32, visits: u32, place: usize)
    ensures { out.new ≡ numbers penalty gap visits place }
{
    *out = [penalty.into(), gap.into(), visits.into(), place as u64];
}

// A refusal by a search, or a fault of a guarded word's reader, which may be that.
fn put_refused(why: Fault, out: &mut [u64; 4]) -> u32
    ensures { (result ≡ (fault_carries why).number) × (out.new
        ≡ numbers (fault_carries why).penalty 0 (fault_carries why).visits
        (fault_carries why).place) }
{
    let shown = why.shown();
    put_numbers(out, shown.penalty, 0, shown.visits, shown.place);
    shown.number
}

// A call that is done, or its refusal.
pub fn put_completed(answer: Result<(), Refusal>, out: &mut [u64; 4]) -> u32
    ensures { (result ≡ (completed answer).number)
        × (out.new ≡ numbers 0 0 0 (completed answer).place) }
{
    match answer {
        Ok(()) => {
            put_numbers(out, 0, 0, 0, 0);
            0
        }
        Err(why) => {
            let shown = why.shown();
            put_numbers(out, 0, 0, 0, shown.place);
            shown.number
        }
    }
}

// A quick reading's penalty, or its refusal.
pub fn put_read(answer: Result<u32, Refusal>, out: &mut [u64; 4]) -> u32
    ensures { (result ≡ read_number answer) × (out.new ≡ read_numbers answer) }
{
    match answer {
        Ok(penalty) => {
            put_numbers(out, penalty, 0, 0, 0);
            0
        }
        Err(why) => {
            let shown = why.shown();
            put_numbers(out, shown.penalty, 0, 0, shown.place);
            shown.number
        }
    }
}

pub fn put_searched(answer: Result<Found, Refusal>, out: &mut [u64; 4]) -> u32
    ensures { (result ≡ searched_number answer)
        × (out.new ≡ searched_numbers answer) }
{
    match answer {
        Ok(found) => {
            put_numbers(out, found.penalty, found.gap, found.visits, 0);
            0
        }
        Err(why) => put_refused(why.into(), out),
    }
}

// An answer with a runner-up, which goes into the lent bytes, zeros included.
pub fn put_with_runner_up(
    answer: WithRunnerUp,
    runner_up: &mut [u8; 256],
    out: &mut [u64; 4],
) -> u32
    ensures { (result ≡ searched_number answer.result)
        × (out.new ≡ searched_numbers answer.result)
        × (runner_up.new ≡ answer.runner_up) }
{
    let shown = answer.runner_up;
    *runner_up = shown;
    let result = answer.result;
    put_searched(result, out)
}

// An early answer's penalty, or its refusal, which may be the search's.
// stays: beside put_read, by which a refusal shows no visits, as the quick reading promises
pub fn put_answered(answer: Result<u32, Refusal>, out: &mut [u64; 4]) -> u32
    ensures { (result ≡ answered_number answer)
        × (out.new ≡ answered_numbers answer) }
{
    match answer {
        Ok(penalty) => {
            put_numbers(out, penalty, 0, 0, 0);
            0
        }
        Err(why) => put_refused(why.into(), out),
    }
}

// r, m, the packed part's length and place.
pub fn put_header(header: Result<Code, Refusal>, length: usize, out: &mut [u64; 4]) -> u32
    ensures { (result ≡ header_number header)
        × (out.new ≡ header_numbers header length) }
{
    match header {
        Ok(code) => {
            *out = [code.r.into(), code.m.into(), length as u64, 0];
            0
        }
        Err(why) => {
            let shown = why.shown();
            *out = [0, 0, length as u64, shown.place as u64];
            shown.number
        }
    }
}

// The place after a record that was written, and a reading's place under a refusal.
pub fn put_wrote(answer: Result<usize, Refusal>, out: &mut [u64; 2]) -> u32
    ensures { (result ≡ wrote_number answer)
        × (out.new ≡ wrote_numbers answer) }
{
    match answer {
        Ok(next) => {
            *out = [next as u64, 0];
            0
        }
        Err(why) => {
            let shown = why.shown();
            *out = [0, shown.place as u64];
            shown.number
        }
    }
}

// A writer of guarded words reports only its number.
pub fn put_written(answer: Result<(), Fault>, out: &mut [u64; 4]) -> u32
    ensures { (result ≡ written_number answer) × (out.new ≡ numbers 0 0 0 0) }
{
    put_numbers(out, 0, 0, 0, 0);
    match answer {
        Ok(()) => 0,
        Err(why) => why.shown().number,
    }
}

// Cylinder, direction and tilt go into numbers of their own.
pub fn put_heard(answer: Result<Heard, Fault>, telegram: &mut [u64; 3], out: &mut [u64; 4]) -> u32
    ensures { reported result out.new (telegram.new ∷ [])
        ≡ shown_read (Tilt.outcome_of answer) }
{
    match answer {
        Ok(heard) => {
            let found = heard.found;
            put_numbers(out, found.penalty, found.gap, found.visits, 0);
            let t = heard.telegram;
            *telegram = [t.cylinder.into(), t.direction.into(), t.tilt.into()];
            0
        }
        Err(why) => {
            *telegram = [0; 3];
            put_refused(why, out)
        }
    }
}

// A rod position goes into a number of its own.
pub fn put_rod(
    answer: Result<rod::Heard, Fault>,
    position: &mut [u64; 1],
    out: &mut [u64; 4],
) -> u32
    ensures { reported result out.new (position.new ∷ [])
        ≡ shown_rod (Rod.outcome_of answer) }
{
    match answer {
        Ok(heard) => {
            put_numbers(out, heard.penalty, heard.gap, 0, 0);
            *position = [heard.position.into()];
            0
        }
        Err(why) => {
            *position = [0];
            put_refused(why, out)
        }
    }
}

// Records and used.
fn pair(index: Index) -> [u64; 2]
    ensures { result ≡ pair index }
{
    [index.records as u64, index.used as u64]
}

// The index that was made: records and used.
pub fn put_made(answer: Result<Index, Refusal>, out: &mut [u64; 2]) -> u32
    ensures { (result ≡ indexed_number answer)
        × (out.new ≡ made_numbers answer) }
{
    match answer {
        Ok(index) => {
            *out = pair(index);
            0
        }
        Err(why) => {
            *out = [0; 2];
            why.shown().number
        }
    }
}

// The index of a capture's front: records, used and ended.
pub fn put_front(answer: Result<FrontIndex, Refusal>, out: &mut [u64; 3]) -> u32
    ensures { (result ≡ fronted_number answer)
        × (out.new ≡ fronted_numbers answer) }
{
    match answer {
        Ok(front) => {
            let ended = front.ended.map_or(0, |why| why.shown().number);
            let index = front.index;
            *out = [index.records as u64, index.used as u64, ended.into()];
            0
        }
        Err(why) => {
            *out = [0; 3];
            why.shown().number
        }
    }
}

// r, m, where a packed part starts, its length and place.
pub fn put_entry(
    header: Result<Code, Refusal>,
    start: usize,
    length: usize,
    out: &mut [u64; 5],
) -> u32
    ensures { (result ≡ header_number header)
        × (out.new ≡ entry_numbers header start length) }
{
    let start = start as u64;
    let length = length as u64;
    match header {
        Ok(code) => {
            *out = [code.r.into(), code.m.into(), start, length, 0];
            0
        }
        Err(why) => {
            let shown = why.shown();
            *out = [0, 0, start, length, shown.place as u64];
            shown.number
        }
    }
}

// A record that was found, and where its packed part starts.
pub fn put_located(answer: Result<Located, Refusal>, out: &mut [u64; 5]) -> u32
    ensures { (result ≡ found_number answer) × (out.new ≡ found_numbers answer) }
{
    match answer {
        Ok(found) => put_entry(Ok(found.code), found.start, found.length, out),
        Err(why) => put_entry(Err(why), 0, 0, out),
    }
}

// The index after an append, which stays as it is on refusal; the new end and the place under 4.
pub fn put_appended(answer: Result<Index, Refusal>, index: &mut [u64; 2], out: &mut [u64; 2]) -> u32
    ensures { (result ≡ indexed_number answer)
        × (index.new ≡ pair_after index.old answer)
        × (out.new ≡ appended_numbers answer) }
{
    match answer {
        Ok(after) => {
            *index = pair(after);
            *out = [after.used as u64, 0];
            0
        }
        Err(why) => {
            let shown = why.shown();
            *out = [0, shown.place as u64];
            shown.number
        }
    }
}
