// The FM25Q16's description as code, table by table.
#![tactic(auto, using(lists::proofs::Choice::choices, std::proofs::lemmas::Bool::Decides::nat_tests), unfolding(rules::specs::Fm25q16::fm_heard_asleep, rules::specs::Fm25q16::fm_heard_busy, rules::specs::Fm25q16::fm_erases, rules::specs::Fm25q16::fm_lo, rules::specs::Fm25q16::fm_hi, rules::specs::Fm25q16::fm_first, rules::specs::Fm25q16::fm_second, rules::specs::Fm25q16::fm_jedec, rules::specs::Fm25q16::fm_status_written, rules::specs::Fm25q16::fm_guard_bytes))]

ghost use Rattle.std.specs.Prelude.{◌≡◌, ◌≤◌};
ghost use Rattle.rules.specs.Part.{row_in};
ghost use Rattle.rules.specs.Fm25q16.{fm_size, fm_commands, fm_heard_asleep, fm_heard_busy, fm_erases, fm_area, fm_lo, fm_hi, fm_first, fm_second, fm_jedec, fm_status_written, fm_guard_bytes};
ghost use Rattle.rules.specs.Job.{guard_limit};

use crate::rows::{exactly, line, or_more};
use rules::{Bytes, EraseUnit, Kind, Leftover, Regs, Row, Write};

pub const SIZE: usize = 2097152;

// S10 to S15 are 0.
pub const STATUS_END: u32 = 1024;

pub const SETTING_LIMIT: u8 = 31;

pub const SLEEPS: bool = true;

pub const GUARD_LENGTH: usize = 3;

pub const MAKER: u8 = 0xF8;

pub const DEVICE: u8 = 0x14;

// The area at BP 0 to 7, where SEC is 0 and where it is 1.
// Kept two: document 01's two columns. As one array of two rows it was tried, and the proof of `area` did not close.
const SEC0: [usize; 8] = [0, 65536, 131072, 262144, 524288, 1048576, 2097152, 2097152];

const SEC1: [usize; 8] = [0, 4096, 8192, 16384, 32768, 32768, 2097152, 2097152];

// Kept a `Some` in each arm: with one around the match it was no longer compiled into its callers.
#[tactic(auto, using(lists::proofs::Choice::choices, std::proofs::lemmas::Bool::Decides::nat_tests), unfolding(rules::specs::Part::row_in, rules::specs::Fm25q16::fm_commands))]
pub fn row_of(op: u8) -> Option<Row>
    ensures { result ≡ row_in fm_commands op }
{
    match op {
        0x06 => Some(exactly(0x06, Kind::WriteEnable, 1)),
        0x04 => Some(exactly(0x04, Kind::WriteDisable, 1)),
        0x05 => Some(or_more(0x05, Kind::ReadStatusLow, 1)),
        0x35 => Some(or_more(0x35, Kind::ReadStatusHigh, 1)),
        0x01 => Some(line(
            0x01,
            Kind::Writes(Write::WriteStatus),
            Bytes::Either(2, 3),
            Leftover::NoBits,
        )),
        0x03 => Some(or_more(0x03, Kind::Read, 4)),
        0x0B => Some(or_more(0x0B, Kind::FastRead, 5)),
        0x02 => Some(line(
            0x02,
            Kind::Writes(Write::Program),
            Bytes::OrMore(5),
            Leftover::NoBits,
        )),
        0x20 => Some(exactly(0x20, Kind::Writes(Write::Erase(EraseUnit::Sector)), 4)),
        0x52 => Some(exactly(0x52, Kind::Writes(Write::Erase(EraseUnit::Block32)), 4)),
        0xD8 => Some(exactly(0xD8, Kind::Writes(Write::Erase(EraseUnit::Block64)), 4)),
        0xC7 => Some(exactly(0xC7, Kind::Writes(Write::Erase(EraseUnit::Chip)), 1)),
        0x60 => Some(exactly(0x60, Kind::Writes(Write::Erase(EraseUnit::Chip)), 1)),
        0xB9 => Some(exactly(0xB9, Kind::Sleep, 1)),
        0xAB => Some(or_more(0xAB, Kind::Wake, 1)),
        0x90 => Some(or_more(0x90, Kind::ReadMakerDevice, 4)),
        0x9F => Some(or_more(0x9F, Kind::ReadJedec, 1)),
        _ => None,
    }
}

pub fn heard_asleep(op: u8) -> bool
    ensures { result ≡ fm_heard_asleep op }
{
    op == 0xAB
}

pub fn heard_busy(op: u8) -> bool
    ensures { result ≡ fm_heard_busy op }
{
    op == 0x05 || op == 0x35
}

pub fn erases(unit: EraseUnit) -> bool
    ensures { result ≡ fm_erases unit }
{
    true
}

// How many bytes a setting protects.
#[tactic(auto, using(lists::proofs::Choice::choices, laws::proofs::Fm25q16::fm_area_small), unfolding(rules::specs::Fm25q16::fm_area, rules::specs::Fm25q16::fm_sec0, rules::specs::Fm25q16::fm_sec1))]
fn area(s: u8) -> usize
    ensures { (result ≡ fm_area s) × (result ≤ fm_size) }
{
    let bp = usize::from(s % 8);
    if s / 16 % 2 == 0 { SEC0[bp] } else { SEC1[bp] }
}

// Kept two: the area's two ends, each a field of the description.
pub fn lo(setting: u8) -> usize
    ensures { result ≡ fm_lo setting }
{
    if setting / 8 % 2 == 0 {
        SIZE - area(setting)
    } else {
        0
    }
}

pub fn hi(setting: u8) -> usize
    ensures { result ≡ fm_hi setting }
{
    if setting / 8 % 2 == 0 {
        SIZE
    } else {
        area(setting)
    }
}

pub fn jedec(place: usize) -> u8
    ensures { result ≡ fm_jedec place }
{
    match place {
        0 => 0xF8,
        1 => 0x32,
        2 => 0x15,
        _ => 0xFF,
    }
}

// Kept two: each byte of a status write has bits of its own.

// The first byte's bits 7 to 2.
fn first(r: Regs, b: u8) -> Regs
    ensures { result ≡ fm_first r b }
{
    regs::with_srp0(regs::with_setting(r, b / 4 % 32), b / 128 % 2 == 1)
}

// The second byte's bits 1 and 0.
fn second(r: Regs, b: u8) -> Regs
    ensures { result ≡ fm_second r b }
{
    regs::with_qe(regs::with_srp1(r, b % 2 == 1), b / 2 % 2 == 1)
}

pub fn status_written(regs: Regs, bytes: &[u8]) -> Regs
    ensures { result ≡ fm_status_written regs bytes.now }
{
    let t = first(regs, lists::byte_at(bytes, 1));
    if bytes.len() == 3 {
        second(t, lists::byte_at(bytes, 2))
    } else {
        t
    }
}

pub fn guard_bytes(setting: u8) -> [u8; 3]
    requires { setting ≤ guard_limit }
    ensures { result ≡ fm_guard_bytes setting }
{
    [1, 4 * setting, 0]
}
