// Packed models: the file layout, its judge, the model of an accepted file and the file of a model. No other library crate knows the layout.
// This module has the bits of a file, its fixed fields, and the types of a file and of an accepted one.
#![tactic(auto)]

ghost use Rattle.std.specs.Prelude.{◌≡◌, ◌+◌, ◌-◌, ◌*◌, ◌/◌, ◌^◌, ◌<◌, ◌≤◌, true, ◌&&◌, not, ltb, length, is_ok, if◌then◌else◌, Some, None, nat_lt, ◌==◌, position, slice_index, slice_set};
ghost use Rattle.std.specs.Int.Count.{count_leading_zeros};
ghost use Rattle.structure.specs.Next.{Smallest};
ghost use Rattle.packed.specs.Bits.{bit_at};
ghost use Rattle.packed.specs.FileOf.{most_bytes};
ghost use Rattle.packed.specs.Layout.{narrow, states_of, start_of, propositions_of, row_of};
ghost use Rattle.packed.specs.Verdict.{verdict};

use model::Model;

mod judge;
mod opening;
mod packing;
mod questions;

pub use judge::inspect;
pub use opening::open;
pub use packing::{FILE_ROOM, file_room, pack};

// The bits of the three fixed fields.
const HEADER_BITS: usize = 21;

// The byte at place `i`, 0 past the end.
fn byte_at(bytes: &[u8], i: usize) -> u8
    ensures { result ≡ slice_index bytes.now i }
{
    bytes.get(i).copied().unwrap_or(0)
}

// The bit at place `i`, most significant first.
fn bit(bytes: &[u8], i: usize) -> bool
    ensures { result ≡ bit_at bytes.now i }
{
    byte_at(bytes, i / 8) >> (7 - i % 8) & 1 == 1
}

// The place of the first 1 of byte number `at`, which is `byte`, where that place is before `to`.
fn leading_one(byte: u8, at: usize, to: usize) -> Option<usize>
    requires { at < 2 ^ 32 }
    ensures { result ≡ (if ltb (at * 8 + count_leading_zeros 8 byte) to then Some (at * 8 + count_leading_zeros 8 byte) else None) }
{
    let place = at * 8 + byte.leading_zeros() as usize;
    (place < to).then_some(place)
}

// The place of the first 1 from place `from` on and before `to`. It goes by whole bytes.
fn first_one(bytes: &[u8], from: usize, to: usize) -> Option<usize>
    requires { (from < 2 ^ 32) × (to < 2 ^ 32) }
    ensures { Smallest (λ i. nat_lt i to && bit_at bytes.now i) from result }
{
    let first = from / 8;
    let rest = byte_at(bytes, first) & (0xff >> (from % 8));
    if rest != 0 {
        return leading_one(rest, first, to);
    }
    let later = bytes.get(first + 1..bytes.len().min(to / 8 + 1))?;
    let zeros = first_nonzero(later)?;
    leading_one(later[zeros], first + 1 + zeros, to)
}

// The place of the first byte that is not 0.
fn first_nonzero(bytes: &[u8]) -> Option<usize>
    ensures { result ≡ position (λ byte. not (byte == 0)) bytes.now }
{
    bytes.iter().position(|byte| *byte != 0)
}

// The three fixed fields of a file.
#[derive(Clone, Copy)]
struct Header {
    states: u16,
    start: u16,
    propositions: u8,
    ghost states_fit: { (1 ≤ states) × (states ≤ 256) },
    ghost start_fits: { start < 256 },
    ghost propositions_fit: { propositions < 32 },
}

impl Header {
    // The fields of a file; a bit that it lacks counts as 0.
    fn read(bytes: &[u8]) -> Header
        ensures states { result.states ≡ states_of narrow bytes.now }
        ensures start { result.start ≡ start_of narrow bytes.now }
        ensures propositions { result.propositions ≡ propositions_of narrow bytes.now }
    {
        Header {
            states: u16::from(byte_at(bytes, 0)) + 1,
            start: u16::from(byte_at(bytes, 1)),
            propositions: byte_at(bytes, 2) >> 3,
        }
    }

    // The fields of a model's file.
    fn of<M: Model>(model: &M) -> Header
        ensures states { result.states ≡ (M.meaning model.now).states }
        ensures start { result.start ≡ (M.meaning model.now).start }
        ensures propositions { result.propositions ≡ (M.meaning model.now).propositions }
    {
        Header {
            states: model.states(),
            start: model.start(),
            propositions: model.propositions(),
        }
    }

    // Writes the fields into the first bytes of a file.
    fn write(self, file: &mut [u8])
        requires { 3 ≤ length file.old }
        ensures { file.new ≡ slice_set (slice_set (slice_set file.old 0 (self.states - 1)) 1 self.start) 2 (self.propositions * 8) }
    {
        file[0] = (self.states - 1) as u8;
        file[1] = self.start as u8;
        file[2] = self.propositions << 3;
    }

    // The place of the first bit of state `s`.
    fn row(self, s: u16) -> usize
        ensures place { result ≡ 21 + s * (self.propositions + self.states) }
        ensures bound { result < 2 ^ 25 }
    {
        HEADER_BITS + usize::from(s) * (usize::from(self.propositions) + usize::from(self.states))
    }

    // The bytes that the fields take: they end where a state after the last would begin. That the largest file has no more is handed up by
    // `File::size` and `file_size`, since a type for a length would be no plainer.
    fn size(self) -> usize
        ensures bytes { result ≡ (21 + self.states * (self.propositions + self.states) + 7) / 8 }
        ensures most { result ≤ most_bytes }
    {
        self.row(self.states).div_ceil(8)
    }
}

// The bytes of a file, accepted or not, and the fixed fields that they begin with.
#[derive(Clone, Copy)]
struct File<'a> {
    bytes: &'a [u8],
    header: Header,
    ghost states: { header.states ≡ states_of narrow bytes.now },
    ghost start: { header.start ≡ start_of narrow bytes.now },
    ghost propositions: { header.propositions ≡ propositions_of narrow bytes.now },
}

impl<'a> File<'a> {
    fn read(bytes: &'a [u8]) -> File<'a>
        ensures { result.bytes.now ≡ bytes.now }
    {
        File {
            bytes,
            header: Header::read(bytes),
        }
    }

    // The place of the first bit of state `s`.
    fn row(&self, s: u16) -> usize
        ensures place { result ≡ row_of narrow self.now.bytes.now s }
        ensures bound { result < 2 ^ 25 }
    {
        self.header.row(s)
    }

    // The place of the first step bit of state `s`.
    fn steps(&self, s: u16) -> usize
        ensures place { result ≡ row_of narrow self.now.bytes.now s + propositions_of narrow self.now.bytes.now }
        ensures bound { result < 2 ^ 26 }
    {
        self.row(s) + usize::from(self.header.propositions)
    }
}

// An accepted file.
#[derive(Clone, Copy)]
pub struct Packed<'a> {
    file: File<'a>,
    ghost accepted: { is_ok (verdict narrow file.bytes.now) ≡ true },
}
