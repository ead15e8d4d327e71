// The meter by itself, brought up to date by what a transaction answered: its number, and the first byte it was sent.
ghost use Rattle.std.specs.Prelude.{◌≡◌, Err};
ghost use Rattle.rules.specs.declared.Verdict.TheVariants.{CarriedOut};
ghost use Rattle.rules.specs.Kinds.{of_known};
ghost use Rattle.rules.specs.Part.{command_of};
ghost use Rattle.rules.specs.Parts.{part_of};
ghost use Rattle.rules.specs.Counts.{meter_after};
ghost use Rattle.rules.specs.CountEntry.{meter_by_answer, count_told, count_of};
ghost use Rattle.laws.specs.Room.{Room};

use rules::{Kind, Meter, Refusal, Uncounted};

// What a number says as a first byte: over 255 it is none, and no command.
#[tactic(auto, using(laws::proofs::Sound::no_byte, laws::proofs::Parts::part_sound))]
fn command_said(part: u32, op: u32) -> Option<Kind>
    ensures { result ≡ command_of (part_of part) op }
{
    u8::try_from(op)
        .ok()
        .and_then(|code| parts::command_of(part, code))
}

// The meter after a command that was carried out.
#[tactic(auto, unfolding(rules::specs::Kinds::of_known))]
fn carried_out(m: Meter, c: Option<Kind>) -> Meter
    requires { Room m 1 }
    ensures { result ≡ of_known c m (λ k. meter_after m (CarriedOut k)) }
{
    match c {
        Some(k) => meter::meter_step(m, k),
        None => m,
    }
}

// The meter after an answer.
#[tactic(auto, using(lists::proofs::Choice::choices, std::proofs::lemmas::Bool::Decides::nat_tests), unfolding(rules::specs::CountEntry::meter_by_answer))]
fn answered(part: u32, m: Meter, number: u32, op: u32) -> Meter
    requires { Room m 1 }
    ensures { result ≡ meter_by_answer (part_of part) m number op }
{
    match number {
        0 => carried_out(m, command_said(part, op)),
        10..=16 => meter::one_ignored(m),
        _ => m,
    }
}

// Turned away: the meter comes back as it was.
fn uncounted(refusal: Refusal, meter: Meter) -> Result<Meter, Uncounted>
    ensures { result ≡ Err (record { meter = meter; refusal = refusal }) }
{
    Err(Uncounted { meter, refusal })
}

// By value: the entry that is lent the meter stores what this gives.
// Kept: an answer's number and a first byte of any size, as C hands them in.
#[tactic(auto, using(lists::proofs::Choice::choices, laws::proofs::Accepted::has_room), unfolding(rules::specs::CountEntry::count_of))]
pub fn count(part: u32, meter: Meter, number: u32, op: u32) -> Result<Meter, Uncounted>
    ensures { count_told result ≡ count_of part meter number op }
{
    if !parts::is_part(part) {
        return uncounted(Refusal::UnknownPart, meter);
    }
    if !meter::has_room(meter, 1) {
        return uncounted(Refusal::MeterFull, meter);
    }
    Ok(answered(part, meter, number, op))
}
