// Whether a command is carried out: document 01's tests, in its order.
#![tactic(auto)]

ghost use Rattle.std.specs.Prelude.{◌≡◌, ◌+◌, ◌<◌, length};
ghost use Rattle.rules.specs.Parts.{part_of};
ghost use Rattle.rules.specs.Units.{unit_start, unit_length};
ghost use Rattle.rules.specs.Protection.{first_protected};
ghost use Rattle.rules.specs.Writes.{reach_start, reach_length, locked, locked_out};
ghost use Rattle.rules.specs.Verdict.{address_of, unheard_asleep, unheard_busy, verdict_of};
ghost use Rattle.laws.specs.Judged.{protection_verdict, write_verdict, kind_verdict, judge_of};
ghost use Rattle.lists.specs.Width.{number_end};

use rules::{BLOCK_32, BLOCK_64, EraseUnit, Kind, PAGE, Reason, Regs, SECTOR, Verdict, Write};

// The bytes that are clocked in, the bits left over, and whether /WP is high.
#[derive(Clone, Copy)]
pub struct Transaction<'a> {
    pub bytes: &'a [u8],
    pub leftover: u32,
    pub high: bool,
}

// ---- where a write reaches
// Kept two and two: each is a definition of the rules with the same arms, and must-fail addressed_byte_alone bends a line of either; a pair has two results in each arm.

pub fn unit_start(unit: EraseUnit, address: usize) -> usize
    ensures { result ≡ unit_start unit address }
{
    match unit {
        EraseUnit::Sector => address / SECTOR * SECTOR,
        EraseUnit::Block32 => address / BLOCK_32 * BLOCK_32,
        EraseUnit::Block64 => address / BLOCK_64 * BLOCK_64,
        EraseUnit::Chip => 0,
    }
}

pub fn unit_length(part: u32, unit: EraseUnit) -> usize
    ensures { result ≡ unit_length (part_of part).size unit }
{
    match unit {
        EraseUnit::Sector => SECTOR,
        EraseUnit::Block32 => BLOCK_32,
        EraseUnit::Block64 => BLOCK_64,
        EraseUnit::Chip => parts::size_of(part),
    }
}

fn reach_start(w: Write, a: usize) -> usize
    ensures { result ≡ reach_start w a }
{
    match w {
        Write::Program => a / PAGE * PAGE,
        Write::Erase(u) => unit_start(u, a),
        Write::WriteStatus => 0,
    }
}

fn reach_length(part: u32, w: Write) -> usize
    ensures { result ≡ reach_length (part_of part) w }
{
    match w {
        Write::Program => PAGE,
        Write::Erase(u) => unit_length(part, u),
        Write::WriteStatus => 0,
    }
}

// The first protected byte among the n from a on, from the two ends of the area.
#[tactic(auto, using(lists::proofs::Choice::choices, laws::proofs::Protection::first_protected_lem))]
pub fn first_protected(part: u32, setting: u8, start: usize, count: usize) -> Option<usize>
    requires { start + count < number_end }
    ensures { result ≡ first_protected (part_of part) setting start count }
{
    let from = start.max(parts::area_lo(part, setting));
    let end = (start + count).min(parts::area_hi(part, setting));
    (from < end).then_some(from)
}

// ---- the tests, each by itself

// Kept two: each is a test of document 01 with a definition of its own.
// Kept side by side, part and registers here and /WP below: a `Chip` would ask for an array that no test looks at.
#[tactic(auto, using(lists::proofs::Choice::choices), unfolding(rules::specs::Verdict::unheard_asleep))]
fn is_unheard_asleep(part: u32, r: Regs, op: u8) -> bool
    ensures { result ≡ unheard_asleep (part_of part) r op }
{
    !r.awake && !parts::heard_asleep(part, op)
}

#[tactic(auto, using(lists::proofs::Choice::choices), unfolding(rules::specs::Verdict::unheard_busy))]
fn is_unheard_busy(part: u32, r: Regs, op: u8) -> bool
    ensures { result ≡ unheard_busy (part_of part) r op }
{
    r.busy && !parts::heard_busy(part, op)
}

#[tactic(auto, using(lists::proofs::Choice::choices), unfolding(rules::specs::Writes::locked))]
fn is_locked(r: Regs, high: bool) -> bool
    ensures { result ≡ locked r high }
{
    r.srp1 || r.srp0 && !high && !r.qe
}

fn is_locked_out(w: Write, r: Regs, high: bool) -> bool
    ensures { result ≡ locked_out w r high }
{
    match w {
        Write::Program | Write::Erase(_) => false,
        Write::WriteStatus => is_locked(r, high),
    }
}

// ---- the tests, one after the other

// 16, or carried out.
fn by_protection(k: Kind, found: Option<usize>) -> Verdict
    ensures { result ≡ protection_verdict k found }
{
    match found {
        Some(_) => Verdict::Ignored(Reason::Protected),
        None => Verdict::CarriedOut(k),
    }
}

// 14, 15, 16, or carried out: a write of kind k.
#[tactic(auto, using(lists::proofs::Choice::choices, laws::proofs::Sound::reach_end, laws::proofs::Sound::size_small, laws::proofs::Parts::part_sound), unfolding(laws::specs::Judged::write_verdict))]
fn judge_write(part: u32, r: Regs, sent: Transaction<'_>, k: Kind, w: Write) -> Verdict
    ensures { result ≡ write_verdict (part_of part) r sent.entry.high (address_of (part_of part) sent.entry.bytes.now) k w }
{
    if !r.wel {
        return Verdict::Ignored(Reason::NotEnabled);
    }
    if is_locked_out(w, r, sent.high) {
        return Verdict::Ignored(Reason::Locked);
    }
    let a = address_of(part, sent.bytes);
    let found = first_protected(part, r.setting, reach_start(w, a), reach_length(part, w));
    by_protection(k, found)
}

// 13, or what the kind asks: its bytes and bits fit, or they do not.
#[tactic(auto, using(lists::proofs::Choice::choices), unfolding(laws::specs::Judged::kind_verdict, rules::specs::Kinds::of_write))]
fn judge_kind(part: u32, r: Regs, sent: Transaction<'_>, fit: bool, k: Kind) -> Verdict
    ensures { result ≡ kind_verdict (part_of part) r fit sent.entry.high (address_of (part_of part) sent.entry.bytes.now) k }
{
    if !fit {
        return Verdict::Ignored(Reason::Misshapen);
    }
    let Kind::Writes(w) = k else {
        return Verdict::CarriedOut(k);
    };
    judge_write(part, r, sent, k, w)
}

// 12, 11, 10, 12, or what a known command asks.
#[tactic(auto, using(lists::proofs::Choice::choices, std::proofs::lemmas::Bool::Decides::nat_tests), unfolding(laws::specs::Judged::judge_of, rules::specs::Kinds::of_known))]
fn judge(part: u32, r: Regs, sent: Transaction<'_>, op: u8, fit: bool, c: Option<Kind>) -> Verdict
    ensures { result ≡ judge_of (part_of part) r (length sent.entry.bytes.now) fit sent.entry.high op (address_of (part_of part) sent.entry.bytes.now) c }
{
    if sent.bytes.is_empty() {
        return Verdict::Ignored(Reason::NoCommand);
    }
    if is_unheard_asleep(part, r, op) {
        return Verdict::Ignored(Reason::Asleep);
    }
    if is_unheard_busy(part, r, op) {
        return Verdict::Ignored(Reason::Busy);
    }
    let Some(k) = c else {
        return Verdict::Ignored(Reason::NoCommand);
    };
    judge_kind(part, r, sent, fit, k)
}

// ---- the verdict on the bytes of a transaction

pub fn address_of(part: u32, bytes: &[u8]) -> usize
    ensures { (result ≡ address_of (part_of part) bytes.now) × (result < (part_of part).size) }
{
    let high = lists::byte_at(bytes, 1);
    let middle = lists::byte_at(bytes, 2);
    let low = lists::byte_at(bytes, 3);
    u32::from_be_bytes([0, high, middle, low]) as usize % parts::size_of(part)
}

#[tactic(auto, using(laws::proofs::Judged::verdict_judged))]
pub fn verdict(part: u32, regs: Regs, sent: Transaction<'_>) -> Verdict
    ensures { result ≡ verdict_of (part_of part) regs sent.entry.bytes.now sent.entry.leftover sent.entry.high }
{
    let op = lists::byte_at(sent.bytes, 0);
    let row = parts::row_of(part, op);
    let fit = parts::rows::shaped_by(row, sent.bytes.len(), sent.leftover);
    judge(part, regs, sent, op, fit, parts::rows::command_by(row))
}
