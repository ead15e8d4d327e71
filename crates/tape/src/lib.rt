// A tape's records: read at a place, checked, written. The place is a number first; the reader stands above.
// Kept side by side, tape and place, here and in `replay`, `lines` and `listing`: document 01, "What to write where", asks for a core by number under the reader.
#![tactic(auto)]

ghost use Rattle.std.specs.Prelude.{◌≡◌, ◌++◌, ◌+◌, ◌*◌, ◌≤◌, ◌<◌, ◌^◌, length, take, drop};
ghost use Rattle.lists.specs.Places.{every_in};
ghost use Rattle.rules.specs.Status.{flag};
ghost use Rattle.rules.specs.Tape.{Rec, record_length, sent_limit, length_at, whole, records, is_zero, good_record, first_bad, encode_rec};
ghost use Rattle.rules.specs.Reading.{next_place, read_told, read_of, said_at};
ghost use Rattle.tape.specs.Moves.{told, found, after};
ghost use Rattle.tape.specs.Record.{head_good};

use rules::{Fault, RECORD_LENGTH, Record, SENT_LIMIT, Sent};

// ---- the whole tape

// A tape that 30 lets pass.
pub fn is_whole(tape: &[u8]) -> bool
    ensures { result ≡ whole tape.now }
{
    tape.len().is_multiple_of(RECORD_LENGTH)
}

pub fn record_count(tape: &[u8]) -> usize
    ensures { result ≡ records tape.now }
{
    tape.len() / RECORD_LENGTH
}

// The first record that 31 refuses.
pub fn first_bad(tape: &[u8]) -> Option<usize>
    ensures { result ≡ first_bad tape.now }
{
    let (records, _) = tape.as_chunks::<RECORD_LENGTH>();
    records.iter().position(|bytes| !is_good(bytes))
}

// ---- one record

// Every byte is 0. No early exit, so that the loop becomes vector instructions.
#[tactic(auto, using(crate::proofs::Scan::or_zero, crate::proofs::Scan::every_more), unfolding(lists::specs::Places::every_in))]
fn all_zero(s: &[u8]) -> bool
    ensures { result ≡ every_in (is_zero s.now) 0 (length s.now) }
{
    let mut joined = 0;
    for &byte in s {
        joined |= byte;
    }
    joined == 0
}

fn sent_length(bytes: &[u8; RECORD_LENGTH]) -> usize
    ensures { (result ≡ length_at bytes.now 0) × (result < 65536) }
{
    usize::from(u16::from_be_bytes([bytes[0], bytes[1]]))
}

// Four head bytes that 31 lets pass.
// Kept bytes: this asks what the tape has; what a good record says is a `Record`.
#[tactic(auto, using(std::proofs::lemmas::Bool::Decides::nat_tests), unfolding(crate::specs::Record::head_good))]
fn is_good_head(n: usize, kind: u8, bits: u8) -> bool
    ensures { result ≡ head_good n kind bits }
{
    n <= SENT_LIMIT && kind <= 2 && bits <= 15 && (kind == 0 || n == 0 && bits == 0)
}

// A record that 31 lets pass.
#[tactic(auto, using(crate::proofs::Good::head_short, crate::proofs::Good::bad_head))]
fn is_good(bytes: &[u8; RECORD_LENGTH]) -> bool
    ensures { result ≡ good_record bytes.now 0 }
{
    let n = sent_length(bytes);
    is_good_head(n, bytes[2], bytes[3]) && all_zero(&bytes[4 + n..])
}

// What a record says that 30 and 31 let pass.
// Kept a match on the kind's byte: it is read here alone, of a record that is good.
#[tactic(auto, using(crate::proofs::Chunks::chunk_byte, lists::proofs::Choice::choices, std::proofs::lemmas::Bool::Decides::nat_tests), unfolding(rules::specs::Reading::said_at))]
pub fn said_at(tape: &[u8], place: usize) -> Record
    requires { place < records tape.now }
    ensures { result ≡ said_at tape.now place }
{
    let (records, _) = tape.as_chunks::<RECORD_LENGTH>();
    let bytes = &records[place];
    match bytes[2] {
        0 => Record::Transaction(Sent {
            start: RECORD_LENGTH * place + 4,
            length: sent_length(bytes),
            leftover: bytes[3] % 8,
            high: 8 <= bytes[3],
        }),
        1 => Record::Finish,
        _ => Record::PowerCycle,
    }
}

// ---- a read at a place

#[tactic(auto, using(crate::proofs::Chunks::found_good, lists::proofs::Choice::choices, std::proofs::lemmas::Bool::Decides::nat_tests), unfolding(rules::specs::Reading::read_at, rules::specs::Reading::read_of))]
pub fn read_at(tape: &[u8], place: usize) -> Result<Option<Record>, Fault>
    ensures { read_told place result ≡ read_of tape.now place }
{
    if !is_whole(tape) {
        return Err(Fault::CutTape);
    }
    let (records, _) = tape.as_chunks::<RECORD_LENGTH>();
    let Some(bytes) = records.get(place) else {
        return Ok(None);
    };
    if !is_good(bytes) {
        return Err(Fault::BadRecord);
    }
    Ok(Some(said_at(tape, place)))
}

// The place after an answer. What a read answers meets the bound: `next_fits`.
fn next_place(place: usize, found: Result<Option<Record>, Fault>) -> usize
    requires { next_place place found < 2 ^ 64 }
    ensures { result ≡ next_place place found }
{
    match found {
        Ok(Some(_)) => place + 1,
        Ok(None) | Err(_) => place,
    }
}

// What a read finds, and the place after it.
#[derive(Drop)]
pub struct Reading {
    pub found: Result<Option<Record>, Fault>,
    pub next: usize,
}

pub fn reading_at(tape: &[u8], place: usize) -> Reading
    ensures { (read_told place result.found ≡ read_of tape.now place) × (result.next ≡ (read_of tape.now place).next) }
{
    let found = read_at(tape, place);
    Reading {
        found,
        next: next_place(place, found),
    }
}

// ---- a record written

// The bytes from the start on become the given ones.
pub fn put(out: &mut [u8], start: usize, bytes: &[u8])
    requires { start + length bytes.now ≤ length out.old }
    ensures { out.new ≡ take start out.old ++ bytes.now ++ drop (start + length bytes.now) out.old }
{
    cells::copy(&mut out[start..start + bytes.len()], bytes);
}

// Byte 3: the leftover bits, plus 8 where /WP is high.
fn bits_of(leftover: u8, high: bool) -> u8
    requires { leftover ≤ 7 }
    ensures { result ≡ leftover + flag high * 8 }
{
    leftover + 8 * u8::from(high)
}

pub fn put_transaction(out: &mut [u8], bytes: &[u8], leftover: u8, high: bool)
    requires { (length out.old ≡ record_length) × (length bytes.now ≤ sent_limit) × (leftover ≤ 7) }
    ensures { out.new ≡ encode_rec (Rec.transaction bytes.now leftover high) }
{
    let [high_byte, low_byte] = (bytes.len() as u16).to_be_bytes();
    let head = [high_byte, low_byte, 0, bits_of(leftover, high)];
    out.fill(0);
    put(out, 0, &head);
    put(out, 4, bytes);
}

pub fn put_finish(out: &mut [u8])
    requires { length out.old ≡ record_length }
    ensures { out.new ≡ encode_rec Rec.finish }
{
    out.fill(0);
    out[2] = 1;
}

// ---- the reader

// Kept: functions and no methods, since docs/PINNED.md pins them by name and the claims speak of them.
// It keeps hold of the caller's bytes and its place. Each function takes it apart and leaves the work to `reading_at`.
#[derive(Drop)]
pub struct Reader<'a> {
    pub bytes: &'a [u8],
    pub place: usize,
}

pub fn new<'a>(bytes: &'a [u8]) -> Reader<'a>
    ensures { (result.bytes ≡ bytes.entry) × (result.place ≡ 0) }
{
    Reader { bytes, place: 0 }
}

pub fn place<'a>(reader: Reader<'a>) -> usize
    ensures { result ≡ reader.entry.place }
{
    reader.place
}

// A record moves the place by one; the end and a fault leave it.
pub fn read<'s, 'a>(reader: &'s mut Reader<'a>) -> Result<Option<Record>, Fault>
    ensures { (told reader.old result ≡ found reader.old) × (reader.new ≡ after reader.old) }
{
    let got = reading_at(reader.bytes, reader.place);
    reader.place = got.next;
    got.found
}

// The answer of a reader of the tape that has come to a place. Its callers need know nothing of readers.
pub fn read_from(tape: &[u8], place: usize) -> Result<Option<Record>, Fault>
    ensures { read_told place result ≡ read_of tape.now place }
{
    let mut reader = Reader { bytes: tape, place };
    read(&mut reader)
}
