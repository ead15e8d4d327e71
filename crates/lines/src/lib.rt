// The lines of the listing program, and what it refuses. The program only writes them out.
#![tactic(auto, using(lists::proofs::Choice::choices, std::proofs::lemmas::Bool::Decides::nat_tests))]

ghost use Rattle.std.specs.Prelude.{◌≡◌, [], ◌∷◌, ◌++◌, ◌+◌, ◌≤◌, ◌<◌, length, get_or, not, ◌||◌, MatchOption};
ghost use Rattle.arrayvec.specs.ArrayVec.{array_vec_len};
ghost use Rattle.lists.specs.Choice.{if◌then◌otherwise◌, ◌=?◌, ◌<?◌};
ghost use Rattle.rules.specs.Listing.{listing_limit, digit, digits3, digits4, hex2, hex_digit, transaction_text, refused_line};
ghost use Rattle.rules.specs.Tape.{whole};
ghost use Rattle.lines.specs.Fault.{fault_of};
ghost use Rattle.lines.specs.Line.{line_of};

use arrayvec::ArrayVec;
use rules::{LISTING_LIMIT, Record, Refusal, Sent};

// Room for any record's line, and for a fault's.
pub const LINE_WIDTH: usize = 16;

pub type Line = ArrayVec<u8, LINE_WIDTH>;

// The line has room for the text.
fn append(line: &mut Line, text: &[u8])
    requires { array_vec_len line.old + length text.now ≤ LINE_WIDTH }
    ensures { line.new.items ≡ line.old.items ++ text.now }
{
    let _ = line.try_extend_from_slice(text);
}

// ---- digits, as bytes of text
// Kept digit by digit: `write!` into an ArrayString was tried, and no contract tells that it succeeds; and `{:04}` writes all digits of a larger number.

fn digit(n: usize) -> u8
    ensures { result ≡ digit n }
{
    b'0' + (n % 10) as u8
}

// The last three digits.
fn digits3(n: usize) -> [u8; 3]
    ensures { result ≡ digits3 n }
{
    [digit(n / 100), digit(n / 10), digit(n)]
}

// And the last four.
fn digits4(n: usize) -> [u8; 4]
    ensures { result ≡ digits4 n }
{
    let [hundreds, tens, ones] = digits3(n);
    [digit(n / 1000), hundreds, tens, ones]
}

// Upper case.
fn hex_digit(n: u8) -> u8
    requires { n < 16 }
    ensures { result ≡ hex_digit n }
{
    if n < 10 { b'0' + n } else { b'A' - 10 + n }
}

fn hex2(n: u8) -> [u8; 2]
    ensures { result ≡ hex2 n }
{
    [hex_digit(n / 16), hex_digit(n % 16)]
}

// ---- lines

// Dashes, where there is no whole byte.
fn command_text(tape: &[u8], sent: Sent) -> [u8; 2]
    ensures { result ≡ (if sent.length =? 0 then 0x2D ∷ 0x2D ∷ [] otherwise hex2 (get_or tape.now sent.start 0)) }
{
    if sent.length == 0 {
        *b"--"
    } else {
        hex2(lists::byte_at(tape, sent.start))
    }
}

fn append_transaction(line: &mut Line, tape: &[u8], sent: Sent)
    requires { array_vec_len line.old + 8 ≤ LINE_WIDTH }
    ensures { line.new.items ≡ line.old.items ++ transaction_text tape.now sent }
{
    append(line, b"T ");
    append(line, &command_text(tape, sent));
    line.push(b' ');
    append(line, &digits3(sent.length));
}

// The line of what a read of the tape at a place found: the record's index, and what it says. The end and a fault, of any type, have none.
pub fn record_line<E: Copy>(
    tape: &[u8],
    place: usize,
    found: Result<Option<Record>, E>,
) -> Option<Line>
    ensures { MatchOption result (line_of tape.now place found ≡ []) (λ line. (line.items ≡ line_of tape.now place found) × (0 < length line.items)) }
{
    let Ok(Some(said)) = found else {
        return None;
    };
    let mut line = Line::new();
    append(&mut line, &digits4(place));
    line.push(b' ');
    match said {
        Record::Transaction(sent) => append_transaction(&mut line, tape, sent),
        Record::Finish => line.push(b'F'),
        Record::PowerCycle => line.push(b'P'),
    }
    line.push(b'\n');
    Some(line)
}

// The line of a fault.
// Kept numbers: a `Refusal` would ask more of callers, and the promise is for any two.
#[tactic(auto, unfolding(rules::specs::Listing::refused_line))]
pub fn refused_line(number: u8, index: usize) -> Line
    ensures { result.items ≡ refused_line number index }
{
    let number = usize::from(number);
    let mut line = Line::new();
    append(&mut line, b"refused ");
    append(&mut line, &[digit(number / 10), digit(number), b' ']);
    append(&mut line, &digits4(index));
    line.push(b'\n');
    line
}

// ---- the whole tape, before the first line

// 30: longer than the listing takes, or not whole records.
fn is_long_or_cut(tape: &[u8]) -> bool
    ensures { result ≡ ((listing_limit <? length tape.now) || not (whole tape.now)) }
{
    LISTING_LIMIT < tape.len() || !tape::is_whole(tape)
}

// 30, then 31.
#[tactic(auto, using(lists::proofs::Choice::choices), unfolding(crate::specs::Fault::fault_of))]
pub fn fault_of(tape: &[u8]) -> Result<(), Refusal>
    ensures { result ≡ fault_of tape.now }
{
    if is_long_or_cut(tape) {
        return Err(Refusal::CutTape);
    }
    refusals::bad_record(tape::first_bad(tape))
}
