// A job: what its bytes say, when it is refused, and what its tape costs.
#![tactic(auto)]

use rules::{Bill, Refusal};

pub mod bill;
pub mod decode;
pub mod refuse;

ghost use Rattle.std.specs.Prelude.{◌≡◌};
ghost use Rattle.rules.specs.Translate.{quote_told, quote_of};

// The bill beforehand, for any input.
// Kept side by side, here and in `translate`, as C hands them in: any are served or refused.
pub fn quote(part: u32, setting: u32, job: &[u8], payload_length: usize) -> Result<Bill, Refusal>
    ensures { quote_told result ≡ quote_of part setting job.now payload_length }
{
    refuse::job_refusal(part, setting, job, payload_length)?;
    Ok(bill::bill_of(job))
}
