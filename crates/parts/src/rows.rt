// The lines of a chip's table of commands, and what they ask of a transaction.
#![tactic(auto, unfolding(rules::specs::Part::takes, rules::specs::Part::leaves))]

ghost use Rattle.std.specs.Prelude.{◌≡◌, Some};
ghost use Rattle.rules.specs.Part.{row, takes, leaves, command_by, shaped_by};

use rules::{Bytes, Kind, Leftover, Row};

// The only maker of a line.
pub fn line(code: u8, kind: Kind, bytes: Bytes, leftover: Leftover) -> Row
    ensures { result ≡ row code kind bytes leftover }
{
    Row {
        code,
        kind,
        bytes,
        leftover,
    }
}

// Kept two: they name the two shapes that most lines have, so that the table reads as document 01's does.

// Exactly so many bytes, and no leftover bits.
pub fn exactly(code: u8, kind: Kind, count: usize) -> Row
    ensures { result ≡ row code kind (Bytes.Exactly count) Leftover.NoBits }
{
    line(code, kind, Bytes::Exactly(count), Leftover::NoBits)
}

// So many bytes or more, whatever is left over.
pub fn or_more(code: u8, kind: Kind, count: usize) -> Row
    ensures { result ≡ row code kind (Bytes.OrMore count) Leftover.AnyBits }
{
    line(code, kind, Bytes::OrMore(count), Leftover::AnyBits)
}

fn takes(bytes: Bytes, n: usize) -> bool
    ensures { result ≡ takes bytes n }
{
    match bytes {
        Bytes::Exactly(k) => n == k,
        Bytes::Either(j, k) => n == j || n == k,
        Bytes::OrMore(k) => k <= n,
    }
}

fn leaves(leftover: Leftover, x: u32) -> bool
    ensures { result ≡ leaves leftover x }
{
    match leftover {
        Leftover::NoBits => x == 0,
        Leftover::AnyBits => true,
    }
}

pub fn command_by(listed: Option<Row>) -> Option<Kind>
    ensures { result ≡ command_by listed }
{
    listed.map(|w| w.kind)
}

// n bytes and x leftover bits are right for the line.
pub fn shaped_by(listed: Option<Row>, count: usize, leftover: u32) -> bool
    ensures { result ≡ shaped_by listed count leftover }
{
    listed.is_some_and(|w| takes(w.bytes, count) && leaves(w.leftover, leftover))
}
