// The types that document 01 speaks of, by value. What they mean stands in specs/.
#![tactic(auto)]

mod numbers;
mod status;
mod units;

// ---- document 01's sizes and limits: one name a rule, as in specs/

pub const PAGE: usize = 256;

pub const SECTOR: usize = 4096;

pub const BLOCK_32: usize = 32768;

pub const BLOCK_64: usize = 65536;

pub const TRANSACTION_LIMIT: usize = 4096;

pub const LEFTOVER_LIMIT: u32 = 7;

pub const COUNT_LIMIT: usize = 4294967295;

pub const RECORD_LENGTH: usize = 264;

pub const SENT_LIMIT: usize = 260;

pub const COMMAND_LENGTH: usize = 792;

pub const STEP_LENGTH: usize = 16;

pub const JOB_LIMIT: usize = 64;

pub const PAYLOAD_LIMIT: usize = 65536;

pub const LAY_LIMIT: usize = 4096;

pub const GUARD_LIMIT: u8 = 31;

pub const LISTING_LIMIT: usize = 65472;

// ---- what the caller keeps

// The registers as the caller keeps them: 16 status bits, and 1 for awake or 0 for asleep.
// Kept numbers: C hands them in, and refusal 3 is decided on any two.
#[repr(C)]
#[derive(Clone, Copy)]
pub struct Kept {
    pub status: u32,
    pub awake: u32,
}

// The meter: programs, erases and register writes that were carried out, and what was ignored.
#[repr(C)]
#[derive(Clone, Copy)]
pub struct Meter {
    pub programs: u32,
    pub erases: u32,
    pub register_writes: u32,
    pub ignored: u32,
}

// The registers taken apart, under document 01's names.
#[derive(Clone, Copy)]
pub struct Regs {
    pub busy: bool,
    pub wel: bool,
    pub setting: u8,
    pub srp0: bool,
    pub srp1: bool,
    pub qe: bool,
    pub awake: bool,
}

// ---- commands and verdicts

// What an erase sets to FF: 4 KB, 32 KB, 64 KB or all.
#[derive(Clone, Copy)]
pub enum EraseUnit {
    Sector,
    Block32,
    Block64,
    Chip,
}

// The commands that write: they want WEL, set BUSY and are counted.
#[derive(Clone, Copy)]
pub enum Write {
    Program,
    Erase(EraseUnit),
    WriteStatus,
}

// The kinds of command, whatever chip offers them.
#[derive(Clone, Copy)]
pub enum Kind {
    WriteEnable,
    WriteDisable,
    ReadStatusLow,
    ReadStatusHigh,
    Read,
    FastRead,
    Sleep,
    Wake,
    ReadMakerDevice,
    ReadJedec,
    Writes(Write),
}

// How many bytes a command takes.
#[derive(Clone, Copy)]
pub enum Bytes {
    Exactly(usize),
    Either(usize, usize),
    OrMore(usize),
}

// What a command asks of the leftover bits.
#[derive(Clone, Copy)]
pub enum Leftover {
    NoBits,
    AnyBits,
}

// A line of a chip's table of commands.
#[derive(Clone, Copy)]
pub struct Row {
    pub code: u8,
    pub kind: Kind,
    pub bytes: Bytes,
    pub leftover: Leftover,
}

// Why a command was ignored, by document 01's number.
#[derive(Clone, Copy)]
pub enum Reason {
    Busy = 10,
    Asleep = 11,
    NoCommand = 12,
    Misshapen = 13,
    NotEnabled = 14,
    Locked = 15,
    Protected = 16,
}

// Kept an enum of its own: document 01, "What to write where", asks for it, and for its `let .. else` in the callers.
#[derive(Clone, Copy)]
pub enum Verdict {
    CarriedOut(Kind),
    Ignored(Reason),
}

// ---- answers

// Why a caller is turned away, in the order of document 01's table; a step or a record that is at fault has its index.
#[derive(Clone, Copy)]
pub enum Refusal {
    UnknownPart,
    ArrayLength,
    NotWellFormed,
    LongTransaction,
    LeftoverBits,
    ShortOutput,
    MeterFull,
    UnfitJob,
    StartSetting,
    StepUnsaid(usize),
    StepOutside(usize),
    StepBeyond(usize),
    StepProtected(usize),
    SmallBuffer,
    CutTape,
    BadRecord(usize),
}

#[derive(Clone, Copy)]
pub struct Served {
    pub verdict: Verdict,
    pub regs: Kept,
    pub meter: Meter,
}

// A count that is turned away: the meter as it was, and why.
#[derive(Clone, Copy)]
pub struct Uncounted {
    pub meter: Meter,
    pub refusal: Refusal,
}

#[derive(Clone, Copy)]
pub struct Played {
    pub regs: Kept,
    pub meter: Meter,
}

// Where a tape holds a transaction's bytes, with its leftover bits and the level of /WP.
// Kept a start and a length: document 01, "What to write where", hands on the part of the tape; and C is told both.
#[derive(Clone, Copy)]
pub struct Sent {
    pub start: usize,
    pub length: usize,
    pub leftover: u8,
    pub high: bool,
}

// What a record of a tape says.
#[derive(Clone, Copy)]
pub enum Record {
    Transaction(Sent),
    Finish,
    PowerCycle,
}

// Why a tape cannot be read at a place, by document 01's number.
// Kept beside `Refusal`'s two cases: a read at a place tells no index.
#[derive(Clone, Copy)]
pub enum Fault {
    CutTape = 30,
    BadRecord = 31,
}

// ---- jobs

#[derive(Clone, Copy)]
pub struct Span {
    pub address: usize,
    pub length: usize,
    pub offset: usize,
}

// A step of a job.
#[derive(Clone, Copy)]
pub enum Step {
    EraseAt(EraseUnit, usize),
    Lay(Span),
    Guard(u8),
}

// By how much a job's tape raises the meter, and how many bytes it is long.
// Kept beside `Meter` and the C interface's `TbBill`, which have three of its fields: those two are laid out for C.
#[derive(Clone, Copy, Default)]
pub struct Bill {
    pub programs: u32,
    pub erases: u32,
    pub register_writes: u32,
    pub length: usize,
}
