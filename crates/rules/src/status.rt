// The registers: the caller's word taken apart, and put together. Here, and not in `regs`: an impl stands in its type's crate.
ghost use Rattle.std.specs.Prelude.{◌≡◌};
ghost use Rattle.rules.specs.Status.{regs_of, kept_of};

use crate::{Kept, Regs};

impl From<Kept> for Regs {
    ghost from_gives = { λ k r. r ≡ regs_of k };

    #[tactic(auto, unfolding(crate::specs::Status::regs_of))]
    fn from(kept: Kept) -> Regs {
        Regs {
            busy: kept.status % 2 == 1,
            wel: kept.status / 2 % 2 == 1,
            setting: (kept.status / 4 % 32) as u8,
            srp0: kept.status / 128 % 2 == 1,
            srp1: kept.status / 256 % 2 == 1,
            qe: kept.status / 512 % 2 == 1,
            awake: kept.awake == 1,
        }
    }
}

impl From<Regs> for Kept {
    ghost from_gives = { λ r k. k ≡ kept_of r };

    #[tactic(auto, unfolding(crate::specs::Status::kept_of, crate::specs::Status::status_of))]
    fn from(regs: Regs) -> Kept {
        Kept {
            status: u32::from(regs.busy)
                + u32::from(regs.wel) * 2
                + u32::from(regs.setting) * 4
                + u32::from(regs.srp0) * 128
                + u32::from(regs.srp1) * 256
                + u32::from(regs.qe) * 512,
            awake: u32::from(regs.awake),
        }
    }
}
