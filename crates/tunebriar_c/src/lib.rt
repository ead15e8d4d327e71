// The static library that C links against: each export calls the entry of `tunebriar` of its name, and promises what that one does.
// include/tunebriar.h declares them.
// Kept beside the entries of `tunebriar`: a crate is a library or a static library, and the C interface needs the exports.
#![tactic(auto)]

ghost use Rattle.std.specs.Prelude.{◌≡◌, length};
ghost use Rattle.rules.specs.Transact.{transact_of};
ghost use Rattle.rules.specs.EventEntries.{finish_of, power_cycle_of};
ghost use Rattle.rules.specs.CountEntry.{metered, count_of};
ghost use Rattle.rules.specs.Replay.{replay_of, replay_first_of};
ghost use Rattle.rules.specs.Reading.{read_of};
ghost use Rattle.rules.specs.Translate.{translate_of, quote_of};
ghost use Rattle.tunebriar.specs.CEntries.{tb_event, tb_bill, tb_record, tb_transact, tb_replay, tb_translate, tb_seen, tb_played, tb_translated};

use rules::{Kept, Meter};
use tunebriar::{TbAnswer, TbBill, TbEvent, TbRecord, TbTape};

#[unsafe(no_mangle)]
pub extern "C" fn tb_count(part: u32, meter: &mut Meter, number: u32, op: u32) -> u32
    ensures { metered result meter.new ≡ count_of part meter.old number op }
{
    tunebriar::tb_count(part, meter, number, op)
}

#[unsafe(no_mangle)]
pub extern "C" fn tb_transact(
    part: u32,
    regs: Kept,
    meter: Meter,
    leftover: u32,
    wp: u32,
    array: &mut [u8],
    out: &mut [u8],
    bytes: &[u8],
) -> TbAnswer
    ensures { tb_seen result array.new out.new ≡ tb_transact (transact_of part regs meter array.old out.old bytes.now leftover wp) }
{
    tunebriar::tb_transact(part, regs, meter, leftover, wp, array, out, bytes)
}

#[unsafe(no_mangle)]
pub extern "C" fn tb_finish(part: u32, regs: Kept) -> TbEvent
    ensures { result ≡ tb_event (finish_of part regs) }
{
    tunebriar::tb_finish(part, regs)
}

#[unsafe(no_mangle)]
pub extern "C" fn tb_power_cycle(part: u32, regs: Kept) -> TbEvent
    ensures { result ≡ tb_event (power_cycle_of part regs) }
{
    tunebriar::tb_power_cycle(part, regs)
}

#[unsafe(no_mangle)]
pub extern "C" fn tb_replay(
    part: u32,
    regs: Kept,
    meter: Meter,
    array: &mut [u8],
    tape: &[u8],
) -> TbAnswer
    ensures { tb_played result array.new ≡ tb_replay (replay_of part regs meter array.old tape.now) }
{
    tunebriar::tb_replay(part, regs, meter, array, tape)
}

#[unsafe(no_mangle)]
pub extern "C" fn tb_replay_first(
    part: u32,
    regs: Kept,
    meter: Meter,
    array: &mut [u8],
    tape: &[u8],
    k: u64,
) -> TbAnswer
    ensures { tb_played result array.new ≡ tb_replay (replay_first_of part regs meter array.old tape.now k) }
{
    tunebriar::tb_replay_first(part, regs, meter, array, tape, k)
}

#[unsafe(no_mangle)]
pub extern "C" fn tb_read(tape: &[u8], place: u64) -> TbRecord
    ensures { result ≡ tb_record (read_of tape.now place) }
{
    tunebriar::tb_read(tape, place)
}

#[unsafe(no_mangle)]
pub extern "C" fn tb_translate(
    part: u32,
    setting: u32,
    job: &[u8],
    payload: &[u8],
    tape: &mut [u8],
) -> TbTape
    ensures { tb_translated result tape.new ≡ tb_translate (translate_of part setting job.now payload.now tape.old) }
{
    tunebriar::tb_translate(part, setting, job, payload, tape)
}

#[unsafe(no_mangle)]
pub extern "C" fn tb_quote(part: u32, setting: u32, job: &[u8], payload: &[u8]) -> TbBill
    ensures { result ≡ tb_bill (quote_of part setting job.now (length payload.now)) }
{
    tunebriar::tb_quote(part, setting, job, payload)
}
