// What an erase sets to FF, by a job's byte, and bills added up. Here, and not in `job`: an impl stands in its type's crate.
ghost use Rattle.std.specs.Prelude.{◌≡◌, ◌+◌, ◌≤◌, ◌<◌, ◌^◌, MatchResult};
ghost use Rattle.rules.specs.Job.{unit_by};
ghost use Rattle.rules.specs.Bill.{◌plus◌};

use crate::{Bill, EraseUnit};
use std::ops::Add;

// A byte that stands for no unit.
#[derive(Clone, Copy)]
pub struct UnknownUnit(pub u8);

impl TryFrom<u8> for EraseUnit {
    type Error = UnknownUnit;

    ghost try_from_gives = { λ n r. MatchResult r (λ u. (n ≤ 3) × (u ≡ unit_by n)) (λ e. (3 < n) × (e.0 ≡ n)) };

    #[tactic(auto, using(lists::proofs::Choice::choices, std::proofs::lemmas::Bool::Decides::nat_tests), unfolding(crate::specs::Job::unit_by))]
    fn try_from(n: u8) -> Result<Self, UnknownUnit> {
        match n {
            0 => Ok(EraseUnit::Sector),
            1 => Ok(EraseUnit::Block32),
            2 => Ok(EraseUnit::Block64),
            3 => Ok(EraseUnit::Chip),
            _ => Err(UnknownUnit(n)),
        }
    }
}

// Where no sum of a count or of the lengths wraps.
impl Add for Bill {
    type Output = Bill;

    ghost can_add = { λ a b. (a.programs + b.programs < 2 ^ 32) × (a.erases + b.erases < 2 ^ 32) × (a.register_writes + b.register_writes < 2 ^ 32) × (a.length + b.length < 2 ^ 64) };

    ghost add_gives = { λ a b r. r ≡ a plus b };

    fn add(self, other: Bill) -> Bill {
        Bill {
            programs: self.programs + other.programs,
            erases: self.erases + other.erases,
            register_writes: self.register_writes + other.register_writes,
            length: self.length + other.length,
        }
    }
}
