// What a program, an erase and a read do to the bytes that are lent to them.
#![tactic(auto, using(lists::proofs::Tabulate::by_places))]

ghost use Rattle.std.specs.Prelude.{◌≡◌, ◌+◌, ◌%◌, ◌≤◌, ◌<◌, length, get_or};
ghost use Rattle.std.specs.Int.Bits.{bit_and};
ghost use Rattle.lists.specs.Places.{tabulate, patched};
ghost use Rattle.rules.specs.Units.{page, page_start};
ghost use Rattle.rules.specs.Cells.{ff, programmed};
ghost use Rattle.cells.specs.InTurn.{in_turn};
ghost use Rattle.cells.specs.Page.{last_sent, programmed_at};

use rules::PAGE;

// ---- one value, or two in turn, at every place
// Kept four loops, `in_turn`, `and_in`, `copy` and `output::jedec`: each stores something else. Over a closure each would keep its promise and its proof, and the one beside them would have a promise for every closure.

// Each byte becomes v.
// Kept over the library's `fill`: the promise is by places, as the callers' proofs take it.
pub fn fill(bytes: &mut [u8], value: u8)
    ensures { bytes.new ≡ tabulate (length bytes.old) (λ j. value) }
{
    bytes.fill(value);
}

// The bytes at even places become first, the others second.
pub fn in_turn(bytes: &mut [u8], first: u8, second: u8)
    ensures { bytes.new ≡ tabulate (length bytes.old) (in_turn first second) }
{
    for (i, byte) in bytes.iter_mut().enumerate() {
        *byte = if i % 2 == 0 { first } else { second };
    }
}

// The n bytes from a on become FF.
pub fn erase(array: &mut [u8], start: usize, count: usize)
    requires { start + count ≤ length array.old }
    ensures { array.new ≡ patched array.old start count ff }
{
    fill(&mut array[start..start + count], 255);
}

// ---- programs

// The last byte sent to each place of the page, FF where none is: FF leaves what it is ANDed into.
#[tactic(auto, using(lists::proofs::Tabulate::by_places, crate::proofs::Sent::latch_more, crate::proofs::Sent::latch_all))]
fn latch(off: usize, bytes: &[u8]) -> [u8; PAGE]
    requires { off < page }
    ensures { result ≡ tabulate page (λ j. last_sent off bytes.now j 255) }
{
    let mut buf = [255u8; PAGE];
    for (i, &byte) in bytes.iter().enumerate() {
        buf[(off + i) % PAGE] = byte;
    }
    buf
}

// Each byte of s becomes old AND new.
// Kept by index: after `s.iter_mut().zip(bytes)` the library tells nothing of the elements, and the proof did not close.
fn and_in(s: &mut [u8], bytes: &[u8])
    requires { length s.old ≡ length bytes.now }
    ensures { s.new ≡ tabulate (length s.old) (λ j. bit_and (get_or s.old j 0) (get_or bytes.now j 0)) }
{
    for (i, byte) in s.iter_mut().enumerate() {
        *byte &= bytes[i];
    }
}

// The bytes go to the page s from the offset on, and wrap inside it.
fn program(s: &mut [u8], off: usize, bytes: &[u8])
    requires { (length s.old ≡ page) × (off < page) }
    ensures { s.new ≡ tabulate page (programmed_at s.old off bytes.now) }
{
    let end = off + bytes.len();
    // Nothing wraps, so no place is sent twice.
    if end <= PAGE {
        and_in(&mut s[off..end], bytes)
    } else {
        and_in(s, &latch(off, bytes))
    }
}

// The bytes go to the page of address a, from its offset on.
pub fn program_at(array: &mut [u8], address: usize, bytes: &[u8])
    requires { page_start address + page ≤ length array.old }
    ensures { array.new ≡ programmed array.old address bytes.now }
{
    let base = address / PAGE * PAGE;
    program(&mut array[base..base + PAGE], address % PAGE, bytes);
}

// ---- copies

// out becomes what from is.
// Kept a loop: with the library's `copy_from_slice` the archive for C asks `memmove` of whoever links it, which nothing else here does.
pub fn copy(out: &mut [u8], from: &[u8])
    requires { length out.old ≡ length from.now }
    ensures { out.new ≡ from.now }
{
    for (i, byte) in out.iter_mut().enumerate() {
        *byte = from[i];
    }
}

// out becomes the array's bytes from a on; after the array's last comes its first.
pub fn copy_wrapped(out: &mut [u8], array: &[u8], address: usize)
    requires { (address < length array.now) × (length out.old ≤ length array.now) }
    ensures { out.new ≡ tabulate (length out.old) (λ j. get_or array.now ((address + j) % length array.now) 0) }
{
    let n = out.len();
    let room = array.len() - address;
    if n <= room {
        copy(out, &array[address..address + n])
    } else {
        let (head, tail) = out.split_at_mut(room);
        copy(head, &array[address..]);
        copy(tail, &array[..n - room])
    }
}
