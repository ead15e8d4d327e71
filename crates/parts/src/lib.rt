// What the code asks of a chip's description, by part number. A new chip is an arm in each of these; no contract moves.
// Kept: each function is a field of the description; a trait would say each of them again, once for the trait and once a chip.
#![tactic(auto, using(lists::proofs::Choice::choices, std::proofs::lemmas::Bool::Decides::nat_tests), unfolding(rules::specs::Parts::is_part, rules::specs::Parts::part_of, rules::specs::Part::row_of, rules::specs::Fm25q16::fm25q16))]

use rules::{EraseUnit, Kept, Kind, Regs, Row};

mod fm25q16;
pub mod rows;

ghost use Rattle.std.specs.Prelude.{◌≡◌, ◌≤◌, length, take};
ghost use Rattle.rules.specs.Part.{row_of, command_of};
ghost use Rattle.rules.specs.Parts.{is_part, part_of};
ghost use Rattle.rules.specs.WellFormed.{word_formed, awake_formed, well_formed};
ghost use Rattle.rules.specs.Job.{guard_limit};

// A part that there is; any other number is refusal 1.
// Kept a number, here and in all that is asked by part, with an operation code or without: C hands one in, and the public functions promise for any.
pub fn is_part(part: u32) -> bool
    ensures { result ≡ is_part part }
{
    part == 1
}

pub fn size_of(part: u32) -> usize
    ensures { result ≡ (part_of part).size }
{
    fm25q16::SIZE
}

// ---- the registers

fn status_end(part: u32) -> u32
    ensures { result ≡ (part_of part).status_end }
{
    fm25q16::STATUS_END
}

// The highest setting that the chip holds.
pub fn setting_limit(part: u32) -> u8
    ensures { (result ≡ (part_of part).setting_limit) × (result ≤ guard_limit) }
{
    fm25q16::SETTING_LIMIT
}

fn sleeps(part: u32) -> bool
    ensures { result ≡ (part_of part).sleeps }
{
    fm25q16::SLEEPS
}

#[tactic(auto, using(std::proofs::lemmas::Bool::Decides::nat_tests), unfolding(rules::specs::WellFormed::word_formed))]
fn word_formed(part: u32, status: u32) -> bool
    ensures { result ≡ word_formed (part_of part) status }
{
    status < status_end(part) && (status % 2 != 1 || status / 2 % 2 == 1)
}

#[tactic(auto, using(std::proofs::lemmas::Bool::Decides::nat_tests), unfolding(rules::specs::WellFormed::awake_formed))]
fn awake_formed(part: u32, kept: Kept) -> bool
    ensures { result ≡ awake_formed (part_of part) kept }
{
    kept.awake == 1 || kept.awake == 0 && kept.status % 2 != 1 && sleeps(part)
}

// Else refusal 3; judged on the caller's own numbers.
#[tactic(auto, using(std::proofs::lemmas::Bool::Decides::nat_tests), unfolding(rules::specs::WellFormed::well_formed))]
pub fn well_formed(part: u32, kept: Kept) -> bool
    ensures { result ≡ well_formed (part_of part) kept }
{
    word_formed(part, kept.status) && awake_formed(part, kept)
}

// The registers after the bytes of a status write.
pub fn status_written(part: u32, regs: Regs, bytes: &[u8]) -> Regs
    ensures { result ≡ (part_of part).status_written regs bytes.now }
{
    fm25q16::status_written(regs, bytes)
}

// ---- its commands

// The line of a code.
pub fn row_of(part: u32, op: u8) -> Option<Row>
    ensures { result ≡ row_of (part_of part) op }
{
    fm25q16::row_of(op)
}

pub fn command_of(part: u32, op: u8) -> Option<Kind>
    ensures { result ≡ command_of (part_of part) op }
{
    rows::command_by(row_of(part, op))
}

pub fn heard_asleep(part: u32, op: u8) -> bool
    ensures { result ≡ (part_of part).heard_asleep op }
{
    fm25q16::heard_asleep(op)
}

pub fn heard_busy(part: u32, op: u8) -> bool
    ensures { result ≡ (part_of part).heard_busy op }
{
    fm25q16::heard_busy(op)
}

// Whether it has a command to erase such a unit.
pub fn erases(part: u32, unit: EraseUnit) -> bool
    ensures { result ≡ (part_of part).erases unit }
{
    fm25q16::erases(unit)
}

// ---- the protected bytes at a setting

// From here ..
pub fn area_lo(part: u32, setting: u8) -> usize
    ensures { result ≡ (part_of part).lo setting }
{
    fm25q16::lo(setting)
}

// .. up to here, and without it.
pub fn area_hi(part: u32, setting: u8) -> usize
    ensures { result ≡ (part_of part).hi setting }
{
    fm25q16::hi(setting)
}

// ---- its identification

pub fn maker(part: u32) -> u8
    ensures { result ≡ (part_of part).maker }
{
    fm25q16::MAKER
}

pub fn device(part: u32) -> u8
    ensures { result ≡ (part_of part).device }
{
    fm25q16::DEVICE
}

// Byte j of a JEDEC read.
pub fn jedec(part: u32, place: usize) -> u8
    ensures { result ≡ (part_of part).jedec place }
{
    fm25q16::jedec(place)
}

// ---- a guard's bytes, the command first
// Kept: three bytes and how many are sent. An ArrayVec would say both, but must-fail guard_of_three bends the end alone.
// Kept: the setting's bound in a `requires`, since it is the part's.

pub fn guard_bytes(part: u32, setting: u8) -> [u8; 3]
    requires { setting ≤ (part_of part).setting_limit }
    ensures { take (length ((part_of part).guard_bytes setting)) result ≡ (part_of part).guard_bytes setting }
{
    fm25q16::guard_bytes(setting)
}

// How many of them are sent.
#[tactic(auto, unfolding(rules::specs::Parts::part_of, rules::specs::Fm25q16::fm25q16, rules::specs::Fm25q16::fm_guard_bytes))]
pub fn guard_length(part: u32, setting: u8) -> usize
    ensures { (result ≡ length ((part_of part).guard_bytes setting)) × (result ≤ 3) }
{
    fm25q16::GUARD_LENGTH
}
