// Document 01's numbers of what is refused, ignored or carried out, as a caller is told them.
ghost use Rattle.std.specs.Prelude.{◌≡◌};
ghost use Rattle.rules.specs.Refusals.{number_of, index_of};
ghost use Rattle.rules.specs.Verdict.{reason_number, kind_of, verdict_told};
ghost use Rattle.rules.specs.Reading.{fault_number};

use crate::{Fault, Kind, Reason, Refusal, Verdict};

impl Refusal {
    pub fn number(self) -> u8
        ensures { result ≡ number_of self }
    {
        match self {
            Refusal::UnknownPart => 1,
            Refusal::ArrayLength => 2,
            Refusal::NotWellFormed => 3,
            Refusal::LongTransaction => 4,
            Refusal::LeftoverBits => 5,
            Refusal::ShortOutput => 6,
            Refusal::MeterFull => 7,
            Refusal::UnfitJob => 20,
            Refusal::StartSetting => 21,
            Refusal::StepUnsaid(_) => 22,
            Refusal::StepOutside(_) => 23,
            Refusal::StepBeyond(_) => 24,
            Refusal::StepProtected(_) => 25,
            Refusal::SmallBuffer => 26,
            Refusal::CutTape => 30,
            Refusal::BadRecord(_) => 31,
        }
    }

    // Of the step or the record that it names, and else 0.
    pub fn index(self) -> usize
        ensures { result ≡ index_of self }
    {
        match self {
            Refusal::StepUnsaid(i)
            | Refusal::StepOutside(i)
            | Refusal::StepBeyond(i)
            | Refusal::StepProtected(i)
            | Refusal::BadRecord(i) => i,
            _ => 0,
        }
    }
}

impl Reason {
    pub fn number(self) -> u8
        ensures { result ≡ reason_number self }
    {
        self as u8
    }
}

impl Verdict {
    // 0 is carried out.
    pub fn number(self) -> u8
        ensures { result ≡ (verdict_told self).number }
    {
        match self {
            Verdict::CarriedOut(_) => 0,
            Verdict::Ignored(reason) => reason.number(),
        }
    }

    // What was carried out; None is ignored.
    pub fn kind(self) -> Option<Kind>
        ensures { result ≡ kind_of self }
    {
        let Verdict::CarriedOut(kind) = self else {
            return None;
        };
        Some(kind)
    }
}

impl Fault {
    pub fn number(self) -> u8
        ensures { result ≡ fault_number self }
    {
        self as u8
    }
}
