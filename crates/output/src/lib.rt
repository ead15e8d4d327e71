// What a command drives on the output, place by place.
#![tactic(auto, using(lists::proofs::Tabulate::by_places))]

ghost use Rattle.std.specs.Prelude.{◌≡◌, ◌≤◌, length};
ghost use Prim.Native.Nat.{min};
ghost use Rattle.lists.specs.Places.{tabulate};
ghost use Rattle.rules.specs.Parts.{part_of};
ghost use Rattle.rules.specs.Transaction.{maker_device, driven_at};
ghost use Rattle.output.specs.Rest.{first_place, rest_at, shown_at};

use rules::{Kind, Regs};

// Kept: the lengths of array and output in a `requires`; part, registers, array, bytes and output side by side. What is driven goes by the registers before the turn, and a `Chip` holds those after it.

// The place that a command drives from, or the output's end.
fn first_place(k: Kind, end: usize) -> usize
    ensures { result ≡ min (first_place k) end }
{
    let place = match k {
        Kind::ReadStatusLow | Kind::ReadStatusHigh | Kind::ReadJedec => 1,
        Kind::Read | Kind::Wake | Kind::ReadMakerDevice => 4,
        Kind::FastRead => 5,
        Kind::WriteEnable | Kind::WriteDisable | Kind::Sleep | Kind::Writes(_) => 0,
    };
    place.min(end)
}

// Maker and device byte in turn, device first if the lowest address bit is 1.
#[tactic(auto, using(crate::proofs::Rest::even_turn, crate::proofs::Rest::odd_turn))]
fn maker_device(rest: &mut [u8], part: u32, b: &[u8])
    ensures { rest.new ≡ tabulate (length rest.old) (maker_device (part_of part) b.now) }
{
    let maker = parts::maker(part);
    let device = parts::device(part);
    if lists::byte_at(b, 3) % 2 == 0 {
        cells::in_turn(rest, maker, device)
    } else {
        cells::in_turn(rest, device, maker)
    }
}

// The JEDEC bytes, FF after the last.
fn jedec(rest: &mut [u8], part: u32)
    ensures { rest.new ≡ tabulate (length rest.old) (part_of part).jedec }
{
    for (i, byte) in rest.iter_mut().enumerate() {
        *byte = parts::jedec(part, i);
    }
}

// What a command drives from its first place on.
#[tactic(auto, unfolding(rules::specs::Transaction::array_from))]
fn drive_rest(rest: &mut [u8], part: u32, r: Regs, array: &[u8], b: &[u8], k: Kind)
    requires { (length array.now ≡ (part_of part).size) × (length rest.old ≤ (part_of part).size) }
    ensures { rest.new ≡ tabulate (length rest.old) (rest_at (part_of part) r array.now b.now k) }
{
    match k {
        Kind::WriteEnable | Kind::WriteDisable | Kind::Sleep | Kind::Writes(_) => cells::fill(
            rest, 255,
        ),
        Kind::ReadStatusLow => cells::fill(rest, regs::low_byte(r)),
        Kind::ReadStatusHigh => cells::fill(rest, regs::high_byte(r)),
        Kind::Read | Kind::FastRead => cells::copy_wrapped(rest, array, judge::address_of(part, b)),
        Kind::Wake => cells::fill(rest, parts::device(part)),
        Kind::ReadMakerDevice => maker_device(rest, part, b),
        Kind::ReadJedec => jedec(rest, part),
    }
}

// What a command that is carried out drives: FF up to its first place.
fn drive(out: &mut [u8], part: u32, r: Regs, array: &[u8], b: &[u8], k: Kind)
    requires { (length array.now ≡ (part_of part).size) × (length out.old ≤ (part_of part).size) }
    ensures { out.new ≡ tabulate (length out.old) (driven_at (part_of part) r array.now b.now k) }
{
    let (before, rest) = out.split_at_mut(first_place(k, out.len()));
    cells::fill(before, 255);
    drive_rest(rest, part, r, array, b, k);
}

// An ignored command drives only FF, whatever the reason: none is asked.
pub fn show(
    out: &mut [u8],
    part: u32,
    regs: Regs,
    array: &[u8],
    bytes: &[u8],
    carried_out: Option<Kind>,
)
    requires { (length array.now ≡ (part_of part).size) × (length out.old ≤ (part_of part).size) }
    ensures { out.new ≡ tabulate (length out.old) (shown_at (part_of part) regs array.now bytes.now carried_out) }
{
    match carried_out {
        Some(kind) => drive(out, part, regs, array, bytes, kind),
        None => cells::fill(out, 255),
    }
}
