// The listing program: a tape on standard input, a line a record on standard output.
// Its lines, and what it refuses, are made by `lines`; here they are handed over, each in its turn.
#![tactic(auto)]

ghost use Rattle.std.specs.Prelude.{◌≡◌, ◌+◌, length};
ghost use Rattle.rules.specs.Listing.{listing_of};
ghost use Rattle.listing.specs.Handed.{Next, Come, AllHanded};

use rules::LISTING_LIMIT;
use tape::Reader;

// Standard output did not take all that it was handed, and is handed no more.
#[derive(Clone, Copy)]
struct WriteFailed;

// The only writer. It takes no bytes but those of the tape's listing that come after the first `done`, and counts them; the tape is there for that alone.
fn put(tape: &[u8], done: &mut usize, bytes: &[u8]) -> Result<(), WriteFailed>
    requires { Next (listing_of tape.now) done.old bytes.now }
    ensures { done.new ≡ done.old + length bytes.now }
{
    *done += bytes.len();
    if io::write_all(1, bytes) {
        Ok(())
    } else {
        Err(WriteFailed)
    }
}

// One reader goes from a record to the end, and each record's line is handed over in its turn. The answer is how many bytes were, with those before.
#[tactic(auto, using(crate::proofs::Next::line_next, crate::proofs::Next::reader_on, crate::proofs::Next::over))]
fn list_from(tape: &[u8], place: usize, done: usize) -> Result<usize, WriteFailed>
    requires { Come tape.now place done }
    ensures { AllHanded tape.now result }
{
    let mut reader = Reader { bytes: tape, place };
    let mut at = place;
    let mut count = done;
    while let Some(line) = lines::record_line(tape, at, tape::read(&mut reader)) {
        put(tape, &mut count, &line)?;
        at = reader.place;
    }
    Ok(count)
}

// The one line of a fault; or, of a tape without one, every record's line.
#[tactic(auto, using(crate::proofs::Next::begins, crate::proofs::Next::fault_next, crate::proofs::Next::fault_long))]
fn list(tape: &[u8]) -> Result<usize, WriteFailed>
    ensures { AllHanded tape.now result }
{
    match lines::fault_of(tape) {
        Ok(()) => list_from(tape, 0, 0),
        Err(refusal) => {
            let line = lines::refused_line(refusal.number(), refusal.index());
            let mut count = 0;
            put(tape, &mut count, &line)?;
            Ok(count)
        }
    }
}

// One byte more than a tape may have, so that a longer one is seen. With the line that `record_line` answers, 32 bytes, and the line taken out of it, 24, 65,529 bytes: within 64 KiB.
// Kept: an array and how much of it was read; a Vec is on the heap, and an ArrayVec is filled from a second array.
fn main() {
    let mut tape = [0u8; LISTING_LIMIT + 1];
    let n = io::read_full(0, &mut tape);
    // Nobody is left to be told of a failed write.
    let _ = list(&tape[..n]);
}
