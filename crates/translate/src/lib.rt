// A job's steps become records on the lent tape.
#![tactic(auto)]

ghost use Rattle.std.specs.Prelude.{true, Some, ◌≡◌, ◌∷◌, ◌++◌, ◌+◌, ◌*◌, ◌≤◌, ◌<◌, length};
ghost use Rattle.rules.specs.Tape.{encode, record_length, sent_limit};
ghost use Rattle.rules.specs.Parts.{part_of};
ghost use Rattle.rules.specs.Job.{lay_bytes, steps_of};
ghost use Rattle.rules.specs.Translate.{translate_told, translate_seen, translate_of};
ghost use Rattle.rules.specs.Records.{three_recs, address_bytes, erase_bytes, page_recs, step_recs, job_recs};
ghost use Rattle.rules.specs.Bill.{pages_touched, command_length};
ghost use Rattle.job.specs.Counted.{Short, Billable};
ghost use Rattle.translate.specs.Writable.{Writable, WritableJob, record_count};
ghost use Rattle.translate.specs.Spliced.{spliced, Fits};
ghost use Rattle.lists.specs.Width.{number_end};
ghost use Rattle.rules.specs.Units.{page};

use rules::{
    COMMAND_LENGTH, EraseUnit, PAGE, RECORD_LENGTH, Refusal, SENT_LIMIT, STEP_LENGTH, Span, Step,
};

// ---- the three records of a command
// Kept: a slice of so many bytes. `first_chunk_mut` gives an Option, whose None would need an arm that nothing reaches; and of
// `as_chunks_mut` and `chunks_exact_mut` no contract tells what the slice ends as.

// 06, the command, finish.
fn put_three(out: &mut [u8], b: &[u8])
    requires { (length out.old ≡ command_length) × (length b.now ≤ sent_limit) }
    ensures { out.new ≡ encode (three_recs b.now) }
{
    let (enable, rest) = out.split_at_mut(RECORD_LENGTH);
    let (command, finish) = rest.split_at_mut(RECORD_LENGTH);
    tape::put_transaction(enable, &[6], 0, true);
    tape::put_transaction(command, b, 0, true);
    tape::put_finish(finish);
}

// An operation code and its address, high byte first.
fn addressed(op: u8, a: usize) -> [u8; 4]
    ensures { result ≡ op ∷ address_bytes a }
{
    let [.., high, middle, low] = a.to_be_bytes();
    [op, high, middle, low]
}

// One page of a lay: the command, its address, the data.
// Kept: a buffer and its end, since a record is put from one piece. An ArrayVec would be filled by two calls that may refuse, and lent on as a slice all the same.
fn put_program(out: &mut [u8], a: usize, data: &[u8])
    requires { (length out.old ≡ command_length) × (length «data».now ≤ page) }
    ensures { out.new ≡ encode (three_recs (0x02 ∷ address_bytes a ++ «data».now)) }
{
    let mut sent = [0u8; SENT_LIMIT];
    let sent = &mut sent[..4 + data.len()];
    tape::put(sent, 0, &addressed(2, a));
    tape::put(sent, 4, data);
    put_three(out, sent);
}

// An erase: the whole chip has no address.
// Kept a match: the code of a unit is asked here alone, and with it whether an address follows.
fn put_erase(out: &mut [u8], u: EraseUnit, a: usize)
    requires { length out.old ≡ command_length }
    ensures { out.new ≡ encode (three_recs (erase_bytes u a)) }
{
    match u {
        EraseUnit::Sector => put_three(out, &addressed(0x20, a)),
        EraseUnit::Block32 => put_three(out, &addressed(0x52, a)),
        EraseUnit::Block64 => put_three(out, &addressed(0xD8, a)),
        EraseUnit::Chip => put_three(out, &[0xC7]),
    }
}

fn put_guard(part: u32, out: &mut [u8], g: u8)
    requires { (length out.old ≡ command_length) × (g ≤ (part_of part).setting_limit) }
    ensures { out.new ≡ encode (three_recs ((part_of part).guard_bytes g)) }
{
    let b = parts::guard_bytes(part, g);
    let end = parts::guard_length(part, g);
    put_three(out, &b[..end]);
}

// ---- the records of a step

// The pages of a lay, in ascending order.
fn put_lay(out: &mut [u8], s: Span, payload: &[u8])
    requires { Short s × (s.offset + s.length ≤ length payload.now) × (length out.old ≡ command_length * pages_touched s.address s.length) }
    ensures { out.new ≡ encode (page_recs (pages_touched s.address s.length) s.address (lay_bytes payload.now s)) }
{
    let mut a = s.address;
    let mut data = &payload[s.offset..s.offset + s.length];
    for i in 0..job::bill::pages_touched(s) {
        let room = PAGE - a % PAGE;
        let (now, later) = data.split_at(room.min(data.len()));
        // Kept: by an index, as said above.
        let at = COMMAND_LENGTH * i;
        put_program(&mut out[at..at + COMMAND_LENGTH], a, now);
        a += room;
        data = later;
    }
}

fn put_records(part: u32, out: &mut [u8], step: Step, payload: &[u8])
    requires { Writable (part_of part) payload.now step × (length out.old ≡ record_length * record_count step) }
    ensures { out.new ≡ encode (step_recs (part_of part) payload.now step) }
{
    match step {
        Step::EraseAt(u, a) => put_erase(out, u, a),
        Step::Lay(s) => put_lay(out, s, payload),
        Step::Guard(g) => put_guard(part, out, g),
    }
}

fn record_count(step: Step) -> usize
    requires { Billable step }
    ensures { result ≡ record_count step }
{
    match step {
        Step::EraseAt(_, _) | Step::Guard(_) => 3,
        Step::Lay(s) => 3 * job::bill::pages_touched(s),
    }
}

// The records of a step, from record k on; the answer is the record after them.
pub fn put_step(part: u32, tape: &mut [u8], k: usize, step: Step, payload: &[u8]) -> usize
    requires { Writable (part_of part) payload.now step × Fits tape.old k (record_count step) × (k < number_end) }
    ensures { (result ≡ k + record_count step) × (tape.new ≡ spliced tape.old (record_length * k) (encode (step_recs (part_of part) payload.now step))) }
{
    let end = k + record_count(step);
    let out = &mut tape[RECORD_LENGTH * k..RECORD_LENGTH * end];
    put_records(part, out, step, payload);
    end
}

// ---- the records of a job

fn put_steps(part: u32, tape: &mut [u8], job: &[u8], payload: &[u8])
    requires { WritableJob (part_of part) payload.now job.now × Fits tape.old 0 (length (job_recs (part_of part) payload.now (steps_of job.now))) }
    ensures { tape.new ≡ spliced tape.old 0 (encode (job_recs (part_of part) payload.now (steps_of job.now))) }
{
    let mut k = 0;
    for i in 0..job.len() / STEP_LENGTH {
        if let Some(step) = job::decode::step_at(job, i) {
            k = put_step(part, tape, k, step, payload);
        }
    }
}

// ---- the entry: any input

// Every check comes before the first byte is written.
pub fn translate(
    part: u32,
    setting: u32,
    job: &[u8],
    payload: &[u8],
    tape: &mut [u8],
) -> Result<usize, Refusal>
    ensures { translate_seen (translate_told result) tape.new ≡ translate_of part setting job.now payload.now tape.old }
{
    job::refuse::job_refusal(part, setting, job, payload.len())?;
    let length = job::bill::bill_of(job).length;
    if tape.len() < length {
        return Err(Refusal::SmallBuffer);
    }
    put_steps(part, tape, job, payload);
    Ok(length)
}
