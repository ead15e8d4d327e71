// The chip: a transaction, a finish event, a power cycle; and the meter by itself.
#![tactic(auto)]

use judge::Transaction;
use rules::{Kept, Kind, Meter, Refusal, Regs, Served, Verdict, Write};

pub mod count;
mod refuse;

ghost use Rattle.std.specs.Prelude.{◌≡◌, length, drop};
ghost use Rattle.rules.specs.Kinds.{of_write};
ghost use Rattle.rules.specs.Parts.{part_of};
ghost use Rattle.rules.specs.Writes.{regs_written, array_written};
ghost use Rattle.rules.specs.Verdict.{address_of, verdict_of};
ghost use Rattle.rules.specs.Transaction.{regs_done, regs_after, array_after};
ghost use Rattle.rules.specs.Counts.{meter_after};
ghost use Rattle.rules.specs.Transact.{transact_told, transact_seen, transact_of};
ghost use Rattle.rules.specs.EventEntries.{event_told, event_of, finish_of, power_cycle_of};
ghost use Rattle.laws.specs.Room.{Room};

// A chip with its meter, that is lent its array.
#[derive(Drop)]
pub struct Chip<'a> {
    pub part: u32,
    pub regs: Regs,
    pub meter: Meter,
    pub array: &'a mut [u8],
    pub ghost sized: { length array.now ≡ (part_of part).size },
}

// ---- what a write does

// The bytes after the command and its address.
fn data_of(b: &[u8]) -> &[u8]
    ensures { result.now ≡ drop 4 b.now }
{
    b.get(4..).unwrap_or(&[])
}

// The array after a write.
// Kept: the array's length in a `requires` of two functions; over a `Chip` they would promise what becomes of its other fields too; `regs_written` and `regs_done`, by value, look at no array.
fn write(part: u32, array: &mut [u8], b: &[u8], w: Write)
    requires { length array.old ≡ (part_of part).size }
    ensures { array.new ≡ array_written (part_of part) array.old b.now (address_of (part_of part) b.now) w }
{
    let a = judge::address_of(part, b);
    match w {
        Write::Program => cells::program_at(array, a, data_of(b)),
        Write::Erase(u) => {
            let start = judge::unit_start(u, a);
            let n = judge::unit_length(part, u);
            cells::erase(array, start, n);
        }
        Write::WriteStatus => {}
    }
}

// The registers after a write.
fn regs_written(part: u32, r: Regs, b: &[u8], w: Write) -> Regs
    ensures { result ≡ regs_written (part_of part) r b.now w }
{
    match w {
        Write::Program | Write::Erase(_) => regs::with_busy(r, true),
        Write::WriteStatus => regs::with_busy(parts::status_written(part, r, b), true),
    }
}

// ---- what a command does that is carried out: the two steps that know no meter, and then the turn that counts

// The registers after a command.
fn regs_done(part: u32, r: Regs, b: &[u8], k: Kind) -> Regs
    ensures { result ≡ regs_done (part_of part) r b.now k }
{
    match k {
        Kind::WriteEnable => regs::with_wel(r, true),
        Kind::WriteDisable => regs::with_wel(r, false),
        Kind::Sleep => regs::with_awake(r, false),
        Kind::Wake => regs::with_awake(r, true),
        Kind::ReadStatusLow
        | Kind::ReadStatusHigh
        | Kind::Read
        | Kind::FastRead
        | Kind::ReadMakerDevice
        | Kind::ReadJedec => r,
        Kind::Writes(w) => regs_written(part, r, b, w),
    }
}

// The array after a command.
#[tactic(auto, unfolding(rules::specs::Kinds::of_write))]
fn array_done(part: u32, array: &mut [u8], b: &[u8], k: Kind)
    requires { length array.old ≡ (part_of part).size }
    ensures { array.new ≡ of_write k array.old (array_written (part_of part) array.old b.now (address_of (part_of part) b.now)) }
{
    if let Kind::Writes(w) = k {
        write(part, array, b, w);
    }
}

// One transaction without its output: the verdict, then the kind that was carried out, or the number of what was not.
pub fn turn(chip: &mut Chip<'_>, sent: Transaction<'_>) -> Verdict
    requires { Room chip.old.meter 1 }
    ensures same { (chip.new.part ≡ chip.old.part) × (chip.new.array.ghost_name ≡ chip.old.array.ghost_name) }
    ensures verdict { result ≡ verdict_of (part_of chip.old.part) chip.old.regs sent.entry.bytes.now sent.entry.leftover sent.entry.high }
    ensures regs { chip.new.regs ≡ regs_after (part_of chip.old.part) chip.old.regs sent.entry.bytes.now result }
    ensures meter { chip.new.meter ≡ meter_after chip.old.meter result }
    ensures array { chip.new.array.now ≡ array_after (part_of chip.old.part) chip.old.array.now sent.entry.bytes.now result }
{
    let verdict = judge::verdict(chip.part, chip.regs, sent);
    let Verdict::CarriedOut(kind) = verdict else {
        chip.meter = meter::one_ignored(chip.meter);
        return verdict;
    };
    chip.regs = regs_done(chip.part, chip.regs, sent.bytes, kind);
    chip.meter = meter::meter_step(chip.meter, kind);
    array_done(chip.part, chip.array, sent.bytes, kind);
    verdict
}

// ---- the entries: any input

// One transaction.
// Kept: /WP as a number, and the parameters side by side, as C hands them in; any are served or refused.
pub fn transact(
    part: u32,
    kept: Kept,
    meter: Meter,
    leftover: u32,
    wp: u32,
    array: &mut [u8],
    out: &mut [u8],
    bytes: &[u8],
) -> Result<Served, Refusal>
    ensures { transact_seen (transact_told kept meter result) array.new out.new ≡ transact_of part kept meter array.old out.old bytes.now leftover wp }
{
    refuse::transaction(
        part,
        array.len(),
        kept,
        bytes.len(),
        leftover,
        out.len(),
        meter,
    )?;
    let regs = Regs::from(kept);
    let sent = Transaction {
        bytes,
        leftover,
        high: wp != 0,
    };
    let mut chip = Chip {
        part,
        regs,
        meter,
        array,
    };
    let verdict = turn(&mut chip, sent);
    let n = bytes.len();
    // The array back first: of what a chip holds, only a variable can be lent on.
    let array = chip.array;
    output::show(&mut out[..n], part, regs, array, bytes, verdict.kind());
    Ok(Served {
        verdict,
        regs: Kept::from(chip.regs),
        meter: chip.meter,
    })
}

// An event, by what it makes of the registers: whatever f `makes` works out, the answer is of f.
fn event<F: FnOnce(Regs) -> Regs>(part: u32, kept: Kept, makes: F) -> Result<Kept, Refusal>
    requires { F.IsAlwaysCallable makes }
    ensures { (f : Regs → Regs) → ((r s : Regs) → F.post makes r s → s ≡ f r) → event_told kept result ≡ event_of part kept f }
{
    refuse::event(part, kept)?;
    Ok(Kept::from(makes(Regs::from(kept))))
}

// A finish event.
#[tactic(auto, unfolding(rules::specs::EventEntries::finish_of))]
pub fn finish(part: u32, kept: Kept) -> Result<Kept, Refusal>
    ensures { event_told kept result ≡ finish_of part kept }
{
    event(part, kept, regs::finished)
}

// A power cycle.
#[tactic(auto, unfolding(rules::specs::EventEntries::power_cycle_of))]
pub fn power_cycle(part: u32, kept: Kept) -> Result<Kept, Refusal>
    ensures { event_told kept result ≡ power_cycle_of part kept }
{
    event(part, kept, regs::power_cycled)
}
