// The registers: the two status bytes, setters, finish and power cycle.
#![tactic(auto)]

ghost use Rattle.std.specs.Prelude.{◌≡◌};
ghost use Rattle.rules.specs.Status.{low_byte, high_byte, with_busy, with_wel, with_setting, with_srp0, with_srp1, with_qe, with_awake};
ghost use Rattle.rules.specs.Events.{finished, unlatched, power_cycled};

use rules::{Kept, Regs};

// ---- the two status bytes

// Kept two: each is a definition of the rules, and a read drives one of them.
#[tactic(auto, unfolding(rules::specs::Status::kept_of, rules::specs::Status::low_byte))]
pub fn low_byte(regs: Regs) -> u8
    ensures { result ≡ low_byte regs }
{
    let [low, ..] = Kept::from(regs).status.to_le_bytes();
    low
}

#[tactic(auto, unfolding(rules::specs::Status::kept_of, rules::specs::Status::status_of, rules::specs::Status::high_byte))]
pub fn high_byte(regs: Regs) -> u8
    ensures { result ≡ high_byte regs }
{
    let [_, high, ..] = Kept::from(regs).status.to_le_bytes();
    high
}

// ---- one register set
// Kept seven: each sets another field, is a definition of the rules, and is what `chip` or `parts` calls; must-fail sets_nothing bends one of them.

pub fn with_busy(regs: Regs, on: bool) -> Regs
    ensures { result ≡ with_busy regs on }
{
    Regs { busy: on, ..regs }
}

pub fn with_wel(regs: Regs, on: bool) -> Regs
    ensures { result ≡ with_wel regs on }
{
    Regs { wel: on, ..regs }
}

pub fn with_setting(regs: Regs, setting: u8) -> Regs
    ensures { result ≡ with_setting regs setting }
{
    Regs { setting, ..regs }
}

pub fn with_srp0(regs: Regs, on: bool) -> Regs
    ensures { result ≡ with_srp0 regs on }
{
    Regs { srp0: on, ..regs }
}

pub fn with_srp1(regs: Regs, on: bool) -> Regs
    ensures { result ≡ with_srp1 regs on }
{
    Regs { srp1: on, ..regs }
}

pub fn with_qe(regs: Regs, on: bool) -> Regs
    ensures { result ≡ with_qe regs on }
{
    Regs { qe: on, ..regs }
}

pub fn with_awake(regs: Regs, on: bool) -> Regs
    ensures { result ≡ with_awake regs on }
{
    Regs { awake: on, ..regs }
}

// ---- events

#[tactic(auto, using(lists::proofs::Choice::choices), unfolding(rules::specs::Events::finished))]
pub fn finished(regs: Regs) -> Regs
    ensures { result ≡ finished regs }
{
    if regs.busy {
        Regs {
            busy: false,
            wel: false,
            ..regs
        }
    } else {
        regs
    }
}

#[tactic(auto, using(lists::proofs::Choice::choices), unfolding(rules::specs::Events::unlatched))]
fn unlatched(r: Regs) -> Regs
    ensures { result ≡ unlatched r }
{
    if r.srp1 && !r.srp0 {
        Regs { srp1: false, ..r }
    } else {
        r
    }
}

#[tactic(auto, unfolding(rules::specs::Events::power_cycled))]
pub fn power_cycled(regs: Regs) -> Regs
    ensures { result ≡ power_cycled regs }
{
    Regs {
        busy: false,
        wel: false,
        awake: true,
        ..unlatched(regs)
    }
}
