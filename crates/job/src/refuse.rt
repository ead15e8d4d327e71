// When a job is refused: document 01's checks 1, 20 and 21, then each step in order for 22 to 25.
ghost use Rattle.std.specs.Prelude.{◌≡◌, false, ◌≤◌};
ghost use Rattle.rules.specs.Parts.{part_of};
ghost use Rattle.rules.specs.Job.{step_count};
ghost use Rattle.rules.specs.JobRefusals.{job_limit, unfit, chip_not_at_zero, outside, beyond, step_start, step_reach, first_shielded, decoded_refusal, setting_after, steps_refusal, job_refusal};

use crate::decode;
use rules::{EraseUnit, JOB_LIMIT, LAY_LIMIT, PAYLOAD_LIMIT, Refusal, STEP_LENGTH, Span, Step};

// ---- 23: where a step lies, and what the chip lacks

fn chip_not_at_zero(u: EraseUnit, a: usize) -> bool
    ensures { result ≡ chip_not_at_zero u a }
{
    match u {
        EraseUnit::Chip => a != 0,
        _ => false,
    }
}

#[tactic(auto, using(crate::proofs::Passed::size_few))]
fn lay_outside(part: u32, s: Span) -> bool
    ensures { result ≡ outside (part_of part) (Step.Lay s) }
{
    let size = parts::size_of(part);
    size <= s.address || s.length == 0 || LAY_LIMIT < s.length || size < s.address + s.length
}

fn is_outside(part: u32, w: Step) -> bool
    ensures { result ≡ outside (part_of part) w }
{
    match w {
        Step::EraseAt(u, a) => {
            !parts::erases(part, u) || parts::size_of(part) <= a || chip_not_at_zero(u, a)
        }
        Step::Lay(s) => lay_outside(part, s),
        Step::Guard(g) => parts::setting_limit(part) < g,
    }
}

// ---- 24: what a lay takes of the payload

fn is_beyond(payload_length: usize, w: Step) -> bool
    ensures { result ≡ beyond payload_length w }
{
    match w {
        // By a difference: the sum of offset and length could wrap.
        Step::Lay(s) => payload_length < s.length || payload_length - s.length < s.offset,
        _ => false,
    }
}

// ---- 25: what a step touches is protected

// Where the bytes that a step touches begin, and how many they are.
fn step_bytes(part: u32, w: Step) -> (usize, usize)
    ensures { (result.0 ≡ step_start w) × (result.1 ≡ step_reach (part_of part) w) }
{
    match w {
        Step::EraseAt(u, a) => (judge::unit_start(u, a), judge::unit_length(part, u)),
        Step::Lay(s) => (s.address, s.length),
        Step::Guard(_) => (0, 0),
    }
}

// The first protected byte that a step touches, at setting s.
#[tactic(auto, using(crate::proofs::Passed::touched_few))]
fn first_shielded(part: u32, s: u8, w: Step) -> Option<usize>
    requires { outside (part_of part) w ≡ false }
    ensures { result ≡ first_shielded (part_of part) s w }
{
    let (start, length) = step_bytes(part, w);
    judge::first_protected(part, s, start, length)
}

// ---- one step

// 22 to 25.
// Kept, no plainer: a struct of part and payload length would be built here from what callers pass, and serve one loop.
#[tactic(auto, using(lists::proofs::Choice::choices, std::proofs::lemmas::Bool::Decides::nat_tests), unfolding(rules::specs::JobRefusals::step_refusal))]
pub fn decoded_refusal(
    part: u32,
    setting: u8,
    payload_length: usize,
    index: usize,
    decoded: Option<Step>,
) -> Result<(), Refusal>
    ensures { result ≡ decoded_refusal (part_of part) setting payload_length index decoded }
{
    let w = decoded.ok_or(Refusal::StepUnsaid(index))?;
    if is_outside(part, w) {
        return Err(Refusal::StepOutside(index));
    }
    if is_beyond(payload_length, w) {
        return Err(Refusal::StepBeyond(index));
    }
    if first_shielded(part, setting, w).is_some() {
        return Err(Refusal::StepProtected(index));
    }
    Ok(())
}

// The setting that the next step's 25 goes by.
pub fn setting_after(setting: u8, decoded: Option<Step>) -> u8
    ensures { result ≡ setting_after setting decoded }
{
    match decoded {
        Some(Step::Guard(g)) => g,
        _ => setting,
    }
}

// ---- the job

// Refusal 20.
#[tactic(auto, using(std::proofs::lemmas::Bool::Decides::nat_tests), unfolding(rules::specs::JobRefusals::unfit))]
fn is_unfit(job: &[u8], payload_length: usize) -> bool
    ensures { result ≡ unfit job.now payload_length }
{
    !job.len().is_multiple_of(STEP_LENGTH)
        || JOB_LIMIT < job.len() / STEP_LENGTH
        || PAYLOAD_LIMIT < payload_length
}

// The first step that is refused, each at the setting that the guards before it left.
#[tactic(auto, using(crate::proofs::Steps::steps_next, crate::proofs::Steps::steps_end, crate::proofs::Steps::passes_or))]
fn steps_refusal(part: u32, s: u8, job: &[u8], payload_length: usize) -> Result<(), Refusal>
    requires { step_count job.now ≤ job_limit }
    ensures { result ≡ steps_refusal (part_of part) s payload_length job.now 0 (step_count job.now) }
{
    let mut setting = s;
    for i in 0..job.len() / STEP_LENGTH {
        let d = decode::step_at(job, i);
        decoded_refusal(part, setting, payload_length, i, d)?;
        setting = setting_after(setting, d);
    }
    Ok(())
}

// Any input: the setting is judged at its full width, and no step is looked at before 20.
#[tactic(auto, using(lists::proofs::Choice::choices, std::proofs::lemmas::Bool::Decides::nat_tests, crate::proofs::Passed::few_steps), unfolding(rules::specs::JobRefusals::job_refusal))]
pub fn job_refusal(
    part: u32,
    setting: u32,
    job: &[u8],
    payload_length: usize,
) -> Result<(), Refusal>
    ensures { result ≡ job_refusal part setting job.now payload_length }
{
    if !parts::is_part(part) {
        return Err(Refusal::UnknownPart);
    }
    if is_unfit(job, payload_length) {
        return Err(Refusal::UnfitJob);
    }
    if u32::from(parts::setting_limit(part)) < setting {
        return Err(Refusal::StartSetting);
    }
    steps_refusal(part, setting as u8, job, payload_length)
}
