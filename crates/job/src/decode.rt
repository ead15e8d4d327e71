// What 16 bytes of a job say.
ghost use Rattle.std.specs.Prelude.{◌≡◌, ◌<◌, drop};
ghost use Rattle.lists.specs.Width.{number_end};
ghost use Rattle.rules.specs.Job.{number4, decoded_at, step_at};

use rules::{EraseUnit, GUARD_LIMIT, STEP_LENGTH, Span, Step};
use std::array;

// Four bytes, big-endian.
fn number(bytes: [u8; 4]) -> usize
    ensures { result ≡ number4 bytes 0 }
{
    u32::from_be_bytes(bytes) as usize
}

// Document 01's table of steps: a byte that it does not name is 0.
#[tactic(auto, using(lists::proofs::Choice::choices, std::proofs::lemmas::Bool::Decides::nat_tests), unfolding(rules::specs::Job::unit_by, rules::specs::Job::decoded_at, rules::specs::Job::decoded_erase, rules::specs::Job::decoded_lay, rules::specs::Job::decoded_guard, lists::specs::Places::every_in))]
fn decoded(step: &[u8; STEP_LENGTH]) -> Option<Step>
    ensures { result ≡ decoded_at step.now 0 }
{
    match *step {
        [1, unit, 0, 0, a0, a1, a2, a3, 0, 0, 0, 0, 0, 0, 0, 0] => Some(Step::EraseAt(
            EraseUnit::try_from(unit).ok()?,
            number([a0, a1, a2, a3]),
        )),
        [2, 0, 0, 0, a0, a1, a2, a3, l0, l1, l2, l3, o0, o1, o2, o3] => Some(Step::Lay(Span {
            address: number([a0, a1, a2, a3]),
            length: number([l0, l1, l2, l3]),
            offset: number([o0, o1, o2, o3]),
        })),
        [3, setting, 0, 0, 0, 0, 0, 0, 0, 0, 0, 0, 0, 0, 0, 0] if setting <= GUARD_LIMIT => {
            Some(Step::Guard(setting))
        }
        _ => None,
    }
}

// What is left of a job from a place on.
fn bytes_from(job: &[u8], at: usize) -> &[u8]
    ensures { result.now ≡ drop at job.now }
{
    job.get(at..).unwrap_or(&[])
}

// Step i of a job; no job that is looked at has so many steps that 16 * i would wrap.
pub fn step_at(job: &[u8], index: usize) -> Option<Step>
    requires { index < number_end }
    ensures { result ≡ step_at job.now index }
{
    let left = bytes_from(job, STEP_LENGTH * index);
    match left.first_chunk() {
        Some(step) => decoded(step),
        // Fewer than sixteen are left: past the job's end a byte is 0.
        None => decoded(&array::from_fn(|k| lists::byte_at(left, k))),
    }
}
