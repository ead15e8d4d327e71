// A tape played on a chip: every check first, then record by record; outputs are dropped.
#![tactic(auto)]

ghost use Rattle.std.specs.Prelude.{◌≡◌, ◌+◌, ◌≤◌, ◌<◌, length, take, drop};
ghost use Rattle.rules.specs.Parts.{part_of};
ghost use Rattle.rules.specs.Tape.{transaction, sent_limit, rec_at, recs_from};
ghost use Rattle.rules.specs.Events.{finished, power_cycled};
ghost use Rattle.rules.specs.Play.{state, play_rec, play};
ghost use Rattle.rules.specs.Replay.{records_refusal, replay_refusal, replay_told, replay_seen, replay_first_of, replay_of};
ghost use Rattle.laws.specs.Room.{Room};
ghost use Rattle.replay.specs.Playable.{Playable};
ghost use Rattle.replay.specs.Held.{Same, state_of};

use chip::Chip;
use judge::Transaction;
use rules::{Kept, Meter, Played, Record, Refusal, Regs, Sent};

// Kept functions, here and `chip::turn`: an impl stands in its type's crate, and docs/ARCHITECTURE.md names `chip::turn`.

// The transaction whose bytes lie in the tape after the record's four head bytes.
fn play_sent(chip: &mut Chip<'_>, tape: &[u8], sent: Sent)
    requires { (sent.start + sent.length ≤ length tape.now) × Room chip.old.meter 1 }
    ensures same { Same chip.old chip.new }
    ensures played { state_of chip.new ≡ play_rec (part_of chip.old.part) (transaction (take sent.length (drop sent.start tape.now)) sent.leftover sent.high) (state_of chip.old) }
{
    let bytes = &tape[sent.start..sent.start + sent.length];
    chip::turn(
        chip,
        Transaction {
            bytes,
            leftover: u32::from(sent.leftover),
            high: sent.high,
        },
    );
}

// Kept two: must-fail skips_finish bends the promise of `ended` alone; one over a closure would be longer than both.
fn ended(chip: &mut Chip<'_>)
    ensures same { Same chip.old chip.new }
    ensures played { state_of chip.new ≡ state (finished chip.old.regs) chip.old.array.now chip.old.meter }
{
    chip.regs = regs::finished(chip.regs);
}

fn cycled(chip: &mut Chip<'_>)
    ensures same { Same chip.old chip.new }
    ensures played { state_of chip.new ≡ state (power_cycled chip.old.regs) chip.old.array.now chip.old.meter }
{
    chip.regs = regs::power_cycled(chip.regs);
}

// Record p.
fn play_at(chip: &mut Chip<'_>, tape: &[u8], p: usize)
    requires { Playable tape.now (p + 1) × Room chip.old.meter 1 }
    ensures same { Same chip.old chip.new }
    ensures played { state_of chip.new ≡ play_rec (part_of chip.old.part) (rec_at tape.now p) (state_of chip.old) }
{
    match tape::said_at(tape, p) {
        Record::Transaction(sent) => play_sent(chip, tape, sent),
        Record::Finish => ended(chip),
        Record::PowerCycle => cycled(chip),
    }
}

// The first n records.
#[tactic(auto, using(crate::proofs::Steps::play_over))]
fn play_first(chip: &mut Chip<'_>, tape: &[u8], count: usize)
    requires { Playable tape.now count × Room chip.old.meter count }
    ensures same { Same chip.old chip.new }
    ensures played { state_of chip.new ≡ play (part_of chip.old.part) (recs_from tape.now 0 count) (state_of chip.old) }
{
    for p in 0..count {
        play_at(chip, tape, p);
    }
}

// ---- the checks, all before the first record

// 31, then 7.
fn refuse_records(m: Meter, tape: &[u8]) -> Result<(), Refusal>
    ensures { result ≡ records_refusal m tape.now }
{
    refusals::bad_record(tape::first_bad(tape))?;
    if !meter::has_room(m, tape::record_count(tape)) {
        return Err(Refusal::MeterFull);
    }
    Ok(())
}

// 1, 2, 3, 30, 31, 7: array of al bytes.
#[tactic(auto, using(laws::proofs::Accepted::opened_goes, lists::proofs::Choice::choices), unfolding(rules::specs::Replay::replay_refusal))]
fn refusal_of(part: u32, al: usize, kept: Kept, m: Meter, tape: &[u8]) -> Result<(), Refusal>
    ensures { result ≡ replay_refusal part al kept m tape.now }
{
    refusals::opened(part, al, kept)?;
    if !tape::is_whole(tape) {
        return Err(Refusal::CutTape);
    }
    refuse_records(m, tape)
}

// ---- the entries: any input

// Kept side by side, as C hands them in: any are served or refused.

// The first k records of the tape, or all if it has no more: the checks are those of the whole tape.
pub fn replay_first(
    part: u32,
    kept: Kept,
    meter: Meter,
    array: &mut [u8],
    tape: &[u8],
    k: usize,
) -> Result<Played, Refusal>
    ensures { replay_seen (replay_told kept meter result) array.new ≡ replay_first_of part kept meter array.old tape.now k }
{
    refusal_of(part, array.len(), kept, meter, tape)?;
    let count = k.min(tape::record_count(tape));
    let mut chip = Chip {
        part,
        regs: Regs::from(kept),
        meter,
        array,
    };
    play_first(&mut chip, tape, count);
    Ok(Played {
        regs: Kept::from(chip.regs),
        meter: chip.meter,
    })
}

// The whole tape.
pub fn replay(
    part: u32,
    kept: Kept,
    meter: Meter,
    array: &mut [u8],
    tape: &[u8],
) -> Result<Played, Refusal>
    ensures { replay_seen (replay_told kept meter result) array.new ≡ replay_of part kept meter array.old tape.now }
{
    replay_first(part, kept, meter, array, tape, tape::record_count(tape))
}
