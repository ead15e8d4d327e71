// What a job's tape costs, before it is made.
ghost use Rattle.std.specs.Prelude.{◌≡◌, ◌≤◌, ◌<◌};
ghost use Rattle.rules.specs.Job.{step_at, step_count, steps_of};
ghost use Rattle.rules.specs.Bill.{pages_touched, step_bill, bill_of};
ghost use Rattle.job.specs.Counted.{page_limit, Short, Billable, Counted, decoded_bill};

use crate::decode;
use rules::{Bill, COMMAND_LENGTH, PAGE, STEP_LENGTH, Span, Step};

pub fn pages_touched(span: Span) -> usize
    requires { Short span }
    ensures { (result ≡ pages_touched span.address span.length) × (result ≤ page_limit) }
{
    (span.address + span.length - 1) / PAGE - span.address / PAGE + 1
}

// A command is three records: 06, the write, a finish.
fn step_bill(w: Step) -> Bill
    requires { Billable w }
    ensures { result ≡ step_bill w }
{
    match w {
        Step::EraseAt(_, _) => Bill {
            erases: 1,
            length: COMMAND_LENGTH,
            ..Bill::default()
        },
        Step::Lay(s) => {
            let pages = pages_touched(s);
            Bill {
                programs: pages as u32,
                length: COMMAND_LENGTH * pages,
                ..Bill::default()
            }
        }
        Step::Guard(_) => Bill {
            register_writes: 1,
            length: COMMAND_LENGTH,
            ..Bill::default()
        },
    }
}

fn bill_at(job: &[u8], i: usize) -> Bill
    requires { Counted job.now × (i < step_count job.now) }
    ensures { result ≡ decoded_bill (step_at job.now i) }
{
    decode::step_at(job, i).map_or(Bill::default(), step_bill)
}

// The bills of all steps, added up.
#[tactic(auto, using(crate::proofs::Bills::bill_more), unfolding(rules::specs::Job::steps_from, rules::specs::Bill::bill_of))]
pub fn bill_of(job: &[u8]) -> Bill
    requires { Counted job.now }
    ensures { result ≡ bill_of (steps_of job.now) }
{
    let mut total = Bill::default();
    for i in 0..job.len() / STEP_LENGTH {
        total = total + bill_at(job, i);
    }
    total
}
