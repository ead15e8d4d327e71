// The C entries: thin, over byte slices and numbers. The static library `tunebriar_c` exports each under its name; include/tunebriar.h declares them.
#![tactic(auto)]

ghost use Rattle.std.specs.Prelude.{◌≡◌, length, Err};
ghost use Rattle.rules.specs.Transact.{transact_told, transact_of};
ghost use Rattle.rules.specs.EventEntries.{event_told, finish_of, power_cycle_of};
ghost use Rattle.rules.specs.CountEntry.{metered, count_of};
ghost use Rattle.rules.specs.Replay.{replay_told, replay_of, replay_first_of};
ghost use Rattle.rules.specs.Reading.{plain_told, read_of};
ghost use Rattle.rules.specs.Translate.{translate_told, translate_of, quote_told, quote_of};
ghost use Rattle.tunebriar.specs.CEntries.{tb_answer, tb_event, tb_tape, tb_bill, tb_record, tb_transact, tb_replay, tb_translate, tb_seen, tb_played, tb_translated};

use rules::{Bill, Kept, Meter, Played, Record, Refusal, Served, Verdict};

// ---- the answers as the C interface has them: numbers alone
// Kept: a number, a kind or an index beside the value, in each struct of its own, since include/tunebriar.h lays them out so.

#[repr(C)]
#[derive(Clone, Copy)]
pub struct TbAnswer {
    pub number: u32,
    pub index: u64,
    pub regs: Kept,
    pub meter: Meter,
}

#[repr(C)]
#[derive(Clone, Copy)]
pub struct TbEvent {
    pub number: u32,
    pub index: u64,
    pub regs: Kept,
}

#[repr(C)]
#[derive(Clone, Copy)]
pub struct TbTape {
    pub number: u32,
    pub index: u64,
    pub length: u64,
}

#[repr(C)]
#[derive(Clone, Copy)]
pub struct TbBill {
    pub number: u32,
    pub index: u64,
    pub programs: u32,
    pub erases: u32,
    pub register_writes: u32,
    pub length: u64,
}

#[repr(C)]
#[derive(Clone, Copy)]
pub struct TbRecord {
    pub kind: u32,
    pub number: u32,
    pub length: u32,
    pub leftover: u32,
    pub wp: u32,
    pub start: u64,
    pub next: u64,
}

// ---- answers as numbers
// Kept functions where a refusal hands the caller's own registers and meter back: those are no function of the answer alone.

fn refused(kept: Kept, meter: Meter, refusal: Refusal) -> TbAnswer
    ensures { result ≡ tb_answer (transact_told kept meter (Err refusal)) }
{
    TbAnswer {
        number: u32::from(refusal.number()),
        index: refusal.index() as u64,
        regs: kept,
        meter,
    }
}

fn transacted(kept: Kept, meter: Meter, answer: Result<Served, Refusal>) -> TbAnswer
    ensures { result ≡ tb_answer (transact_told kept meter answer) }
{
    match answer {
        Ok(served) => TbAnswer {
            number: u32::from(served.verdict.number()),
            index: 0,
            regs: served.regs,
            meter: served.meter,
        },
        Err(refusal) => refused(kept, meter, refusal),
    }
}

fn event(kept: Kept, answer: Result<Kept, Refusal>) -> TbEvent
    ensures { result ≡ tb_event (event_told kept answer) }
{
    match answer {
        Ok(regs) => TbEvent {
            number: 0,
            index: 0,
            regs,
        },
        Err(refusal) => TbEvent {
            number: u32::from(refusal.number()),
            index: refusal.index() as u64,
            regs: kept,
        },
    }
}

fn replayed(kept: Kept, meter: Meter, answer: Result<Played, Refusal>) -> TbAnswer
    ensures { result ≡ tb_answer (replay_told kept meter answer) }
{
    match answer {
        Ok(played) => TbAnswer {
            number: 0,
            index: 0,
            regs: played.regs,
            meter: played.meter,
        },
        Err(refusal) => refused(kept, meter, refusal),
    }
}

// ---- the entries
// Kept: their parameters stand side by side, and two entries are alike but for what they call, as the C interface has it.

// The caller's meter brought up to date where it lies.
#[tactic(auto, using(crate::proofs::Told::count_refused))]
pub fn tb_count(part: u32, meter: &mut Meter, number: u32, op: u32) -> u32
    ensures { metered result meter.new ≡ count_of part meter.old number op }
{
    match chip::count::count(part, *meter, number, op) {
        Ok(counted) => {
            *meter = counted;
            0
        }
        Err(uncounted) => {
            *meter = uncounted.meter;
            u32::from(uncounted.refusal.number())
        }
    }
}

pub fn tb_transact(
    part: u32,
    regs: Kept,
    meter: Meter,
    leftover: u32,
    wp: u32,
    array: &mut [u8],
    out: &mut [u8],
    bytes: &[u8],
) -> TbAnswer
    ensures { tb_seen result array.new out.new ≡ tb_transact (transact_of part regs meter array.old out.old bytes.now leftover wp) }
{
    let answer = chip::transact(part, regs, meter, leftover, wp, array, out, bytes);
    transacted(regs, meter, answer)
}

pub fn tb_finish(part: u32, regs: Kept) -> TbEvent
    ensures { result ≡ tb_event (finish_of part regs) }
{
    event(regs, chip::finish(part, regs))
}

pub fn tb_power_cycle(part: u32, regs: Kept) -> TbEvent
    ensures { result ≡ tb_event (power_cycle_of part regs) }
{
    event(regs, chip::power_cycle(part, regs))
}

pub fn tb_replay(part: u32, regs: Kept, meter: Meter, array: &mut [u8], tape: &[u8]) -> TbAnswer
    ensures { tb_played result array.new ≡ tb_replay (replay_of part regs meter array.old tape.now) }
{
    let answer = replay::replay(part, regs, meter, array, tape);
    replayed(regs, meter, answer)
}

pub fn tb_replay_first(
    part: u32,
    regs: Kept,
    meter: Meter,
    array: &mut [u8],
    tape: &[u8],
    k: u64,
) -> TbAnswer
    ensures { tb_played result array.new ≡ tb_replay (replay_first_of part regs meter array.old tape.now k) }
{
    let answer = replay::replay_first(part, regs, meter, array, tape, k as usize);
    replayed(regs, meter, answer)
}

pub fn tb_read(tape: &[u8], place: u64) -> TbRecord
    ensures { result ≡ tb_record (read_of tape.now place) }
{
    let r = tape::reading_at(tape, place as usize);
    let next = r.next as u64;
    match r.found {
        Ok(Some(Record::Transaction(sent))) => TbRecord {
            kind: 0,
            number: 0,
            length: sent.length as u32,
            leftover: u32::from(sent.leftover),
            wp: u32::from(sent.high),
            start: sent.start as u64,
            next,
        },
        Ok(Some(Record::Finish)) => plain(1, 0, next),
        Ok(Some(Record::PowerCycle)) => plain(2, 0, next),
        Ok(None) => plain(3, 0, next),
        Err(fault) => plain(4, u32::from(fault.number()), next),
    }
}

// An answer that is no transaction.
// Kept a function, as the match above: `read_told` goes by the place that was asked, which a `Reading` does not hold.
fn plain(kind: u32, number: u32, next: u64) -> TbRecord
    ensures { result ≡ tb_record (plain_told kind number next) }
{
    TbRecord {
        kind,
        number,
        length: 0,
        leftover: 0,
        wp: 0,
        start: 0,
        next,
    }
}

// ---- jobs

impl From<Result<usize, Refusal>> for TbTape {
    ghost from_gives = { λ answer tape. tape ≡ tb_tape (translate_told answer) };

    fn from(answer: Result<usize, Refusal>) -> TbTape {
        match answer {
            Ok(n) => TbTape {
                number: 0,
                index: 0,
                length: n as u64,
            },
            Err(refusal) => TbTape {
                number: u32::from(refusal.number()),
                index: refusal.index() as u64,
                length: 0,
            },
        }
    }
}

impl From<Result<Bill, Refusal>> for TbBill {
    ghost from_gives = { λ answer bill. bill ≡ tb_bill (quote_told answer) };

    fn from(answer: Result<Bill, Refusal>) -> TbBill {
        match answer {
            Ok(bill) => TbBill {
                number: 0,
                index: 0,
                programs: bill.programs,
                erases: bill.erases,
                register_writes: bill.register_writes,
                length: bill.length as u64,
            },
            Err(refusal) => TbBill {
                number: u32::from(refusal.number()),
                index: refusal.index() as u64,
                programs: 0,
                erases: 0,
                register_writes: 0,
                length: 0,
            },
        }
    }
}

pub fn tb_translate(part: u32, setting: u32, job: &[u8], payload: &[u8], tape: &mut [u8]) -> TbTape
    ensures { tb_translated result tape.new ≡ tb_translate (translate_of part setting job.now payload.now tape.old) }
{
    TbTape::from(translate::translate(part, setting, job, payload, tape))
}

pub fn tb_quote(part: u32, setting: u32, job: &[u8], payload: &[u8]) -> TbBill
    ensures { result ≡ tb_bill (quote_of part setting job.now (length payload.now)) }
{
    TbBill::from(job::quote(part, setting, job, payload.len()))
}
