// The checks that more than one entry asks.
#![tactic(auto)]

ghost use Rattle.std.specs.Prelude.{◌≡◌};
ghost use Rattle.rules.specs.Replay.{bad_record};
ghost use Rattle.laws.specs.Opened.{opened_refusal};

use rules::{Kept, Refusal};

// 1, 2, 3: an array of so many bytes is lent.
#[tactic(auto, using(lists::proofs::Choice::choices, std::proofs::lemmas::Bool::Decides::nat_tests), unfolding(laws::specs::Opened::opened_refusal))]
pub fn opened(part: u32, array_length: usize, kept: Kept) -> Result<(), Refusal>
    ensures { result ≡ opened_refusal part array_length kept }
{
    if !parts::is_part(part) {
        return Err(Refusal::UnknownPart);
    }
    if array_length != parts::size_of(part) {
        return Err(Refusal::ArrayLength);
    }
    if !parts::well_formed(part, kept) {
        return Err(Refusal::NotWellFormed);
    }
    Ok(())
}

// 31 with the index of the first bad record of a tape, where there is one.
pub fn bad_record(found: Option<usize>) -> Result<(), Refusal>
    ensures { result ≡ bad_record found }
{
    match found {
        Some(place) => Err(Refusal::BadRecord(place)),
        None => Ok(()),
    }
}
