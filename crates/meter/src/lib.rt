// The meter: one more program, erase or register write that was carried out, or one more that was ignored.
#![tactic(auto)]

ghost use Rattle.std.specs.Prelude.{◌≡◌, ◌+◌};
ghost use Rattle.rules.specs.Kinds.{of_write};
ghost use Rattle.lists.specs.Choice.{◌≤?◌};
ghost use Rattle.rules.specs.Counts.{count_limit, counted, ignored_counted, room};
ghost use Rattle.laws.specs.Room.{Room};

use rules::{COUNT_LIMIT, Kind, Meter, Write};

// Kept: room for n is asked in a `requires`, here and above. A meter is the C interface's struct of any four counts, and n falls from record to record.
// Kept: three counts and `one_ignored`, each another field.
fn count(m: Meter, w: Write) -> Meter
    requires { Room m 1 }
    ensures { result ≡ counted m w }
{
    match w {
        Write::Program => Meter {
            programs: m.programs + 1,
            ..m
        },
        Write::Erase(_) => Meter {
            erases: m.erases + 1,
            ..m
        },
        Write::WriteStatus => Meter {
            register_writes: m.register_writes + 1,
            ..m
        },
    }
}

// Of what was carried out the writes count, each in its own count; nothing else does.
#[tactic(auto, unfolding(rules::specs::Kinds::of_write))]
pub fn meter_step(meter: Meter, kind: Kind) -> Meter
    requires { Room meter 1 }
    ensures { result ≡ of_write kind meter (counted meter) }
{
    match kind {
        Kind::Writes(w) => count(meter, w),
        _ => meter,
    }
}

pub fn one_ignored(meter: Meter) -> Meter
    requires { Room meter 1 }
    ensures { result ≡ ignored_counted meter }
{
    Meter {
        ignored: meter.ignored + 1,
        ..meter
    }
}

// n more fit a count: n may be of any size, so the sum saturates.
fn fits_count(count: u32, n: usize) -> bool
    ensures { result ≡ (count + n ≤? count_limit) }
{
    (count as usize).saturating_add(n) <= COUNT_LIMIT
}

// No count plus so many exceeds the limit; else refusal 7. Kept four calls: each asks another field.
#[tactic(auto, unfolding(rules::specs::Counts::room))]
pub fn has_room(meter: Meter, more: usize) -> bool
    ensures { result ≡ room meter more }
{
    fits_count(meter.programs, more)
        && fits_count(meter.erases, more)
        && fits_count(meter.register_writes, more)
        && fits_count(meter.ignored, more)
}
