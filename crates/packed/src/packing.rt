// Models written as files.
ghost use Rattle.std.specs.Prelude.{◌≡◌, ℕ, ◌+◌, ◌*◌, ◌<◌, ◌≤◌, ◌||◌, ◌++◌, length, drop, IfOk, if◌then◌else◌, Ok, Err, ◌==◌, nat_le};
ghost use Rattle.refusal.specs.declared.Refusal.TheVariants.{SliceTooSmall};
ghost use Rattle.packed.specs.Bits.{bit_at};
ghost use Rattle.packed.specs.FileOf.{file_of, most_bytes, row_at};
ghost use Rattle.packed.specs.Layout.{narrow};
ghost use Rattle.packed.specs.Verdict.{verdict, opened};
ghost use Rattle.packed.specs.Writing.{Written};

use crate::Header;
use model::Model;
use refusal::Refusal;

// A slice with as many bytes has room for the file of every model.
pub const FILE_ROOM: usize = 9187;

// The same, with the promise that the constant is the number that the definitions give.
pub fn file_room() -> usize
    ensures value { result ≡ 9187 }
    ensures defined { result ≡ most_bytes }
    ensures constant { FILE_ROOM ≡ most_bytes }
{
    FILE_ROOM
}

// Writes the file of a model at the front of `out`, and gives its length. Where `out` is shorter, it writes nothing.
// Opened again, the file means what the model means. The slice is lent and a length is given (a rule of the project: no heap in libraries).
pub fn pack<M: Model>(model: &M, out: &mut [u8]) -> Result<usize, Refusal>
    ensures value { let file = file_of narrow (M.meaning model.now) in result ≡ (if nat_le (length file) (length out.old) then Ok (length file) else Err SliceTooSmall) }
    ensures after { let file = file_of narrow (M.meaning model.now) in out.new ≡ (if nat_le (length file) (length out.old) then file ++ drop (length file) out.old else out.old) }
    ensures within { IfOk result (λ n. n ≤ length out.old) }
    ensures accepted { verdict narrow (file_of narrow (M.meaning model.now)) ≡ Ok tt }
    ensures opens { let S = M.meaning model.now in opened narrow (file_of narrow S) ≡ S }
    ensures most { length (file_of narrow (M.meaning model.now)) ≤ most_bytes }
    ensures room { length (file_of narrow (M.meaning model.now)) ≤ FILE_ROOM }
{
    let size = file_size(model);
    if out.len() < size {
        return Err(Refusal::SliceTooSmall);
    }
    write_file(model, &mut out[..size]);
    Ok(size)
}

// The length of the model's file.
fn file_size<M: Model>(model: &M) -> usize
    ensures value { result ≡ length (file_of narrow (M.meaning model.now)) }
    ensures accepted { verdict narrow (file_of narrow (M.meaning model.now)) ≡ Ok tt }
    ensures opens { let S = M.meaning model.now in opened narrow (file_of narrow S) ≡ S }
    ensures most { result ≤ most_bytes }
{
    Header::of(model).size()
}

// Writes the model's file, which is as long as `file`. The two go through the functions below as well; a struct of them would be no plainer,
// since only this function would make one.
fn write_file<M: Model>(model: &M, file: &mut [u8])
    requires { length file.old ≡ length (file_of narrow (M.meaning model.now)) }
    ensures { file.new ≡ file_of narrow (M.meaning model.now) }
{
    let header = Header::of(model);
    file.fill(0);
    header.write(file);
    for s in 0..header.states {
        let row = header.row(s);
        write_labels(model, s, row, file);
        write_steps(model, s, row + usize::from(header.propositions), file);
    }
}

// Writes the labels of state `s`, whose bits begin at place `row`.
fn write_labels<M: Model>(model: &M, s: u16, row: usize, file: &mut [u8])
    requires inside { s < (M.meaning model.now).states }
    requires row { row ≡ row_at narrow (M.meaning model.now) s }
    requires written { Written (M.meaning model.now) file.old (row_at narrow (M.meaning model.now) s) }
    ensures { let S = M.meaning model.now in Written S file.new (row_at narrow S s + S.propositions) }
{
    for p in 0..model.propositions() {
        if model.holds(s, p) {
            set_bit(file, row + usize::from(p));
        }
    }
}

// Writes the steps of state `s`, whose bits begin at place `steps`. The loop asks `next` until it answers
// `None`: a rule of the project.
fn write_steps<M: Model>(model: &M, s: u16, steps: usize, file: &mut [u8])
    requires inside { s < (M.meaning model.now).states }
    requires steps { steps ≡ row_at narrow (M.meaning model.now) s + (M.meaning model.now).propositions }
    requires written { Written (M.meaning model.now) file.old (row_at narrow (M.meaning model.now) s + (M.meaning model.now).propositions) }
    ensures { let S = M.meaning model.now in Written S file.new (row_at narrow S (s + 1)) }
{
    let mut from = 0;
    while let Some(t) = model.next(s, from) {
        set_bit(file, steps + usize::from(t));
        from = t + 1;
    }
}

// Sets the bit at place `i`.
fn set_bit(file: &mut [u8], i: usize)
    requires { i < length file.old * 8 }
    ensures size { length file.new ≡ length file.old }
    ensures bits { (k : ℕ) → bit_at file.new k ≡ (k == i || bit_at file.old k) }
{
    file[i / 8] |= 128 >> (i % 8);
}
