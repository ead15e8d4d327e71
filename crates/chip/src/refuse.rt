// The checks before a transaction and before an event, in document 01's order.
ghost use Rattle.std.specs.Prelude.{◌≡◌};
ghost use Rattle.rules.specs.Refusals.{transact_refusal, event_refusal};

use rules::{Kept, LEFTOVER_LIMIT, Meter, Refusal, TRANSACTION_LIMIT};

// Any input: `count` bytes are clocked in.
#[tactic(auto, using(laws::proofs::Accepted::opened_goes, lists::proofs::Choice::choices, std::proofs::lemmas::Bool::Decides::nat_tests), unfolding(rules::specs::Refusals::transact_refusal))]
pub fn transaction(
    part: u32,
    array_length: usize,
    kept: Kept,
    count: usize,
    leftover: u32,
    out_length: usize,
    meter: Meter,
) -> Result<(), Refusal>
    ensures { result ≡ transact_refusal part array_length kept count leftover out_length meter }
{
    refusals::opened(part, array_length, kept)?;
    if TRANSACTION_LIMIT < count {
        return Err(Refusal::LongTransaction);
    }
    if LEFTOVER_LIMIT < leftover {
        return Err(Refusal::LeftoverBits);
    }
    if out_length < count {
        return Err(Refusal::ShortOutput);
    }
    if !meter::has_room(meter, 1) {
        return Err(Refusal::MeterFull);
    }
    Ok(())
}

// Kept beside `refusals::opened`: there 2 stands between 1 and 3.
#[tactic(auto, using(lists::proofs::Choice::choices, std::proofs::lemmas::Bool::Decides::nat_tests), unfolding(rules::specs::Refusals::event_refusal))]
pub fn event(part: u32, kept: Kept) -> Result<(), Refusal>
    ensures { result ≡ event_refusal part kept }
{
    if !parts::is_part(part) {
        return Err(Refusal::UnknownPart);
    }
    if !parts::well_formed(part, kept) {
        return Err(Refusal::NotWellFormed);
    }
    Ok(())
}
