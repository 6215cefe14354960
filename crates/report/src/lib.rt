// The lines of a report.
#![tactic(auto)]

ghost use Rattle.std.specs.Prelude.{◌≡◌, ◌*◌, ◌<◌, ◌≤◌, true, ◌++◌, length, drop, replicate, is_ok, IfOk, if◌then◌else◌, Ok, Err};
ghost use Rattle.refusal.specs.declared.Refusal.TheVariants.{SliceTooSmall};
ghost use Rattle.refusal.specs.Numbers.{number_of};
ghost use Rattle.structure.specs.Structure.{still};
ghost use Rattle.structure.specs.Paths.{visited_count, Visits};
ghost use Rattle.packed.specs.Layout.{narrow, spells};
ghost use Rattle.packed.specs.Verdict.{verdict};
ghost use Rattle.report.specs.Headline.{model_line, refusal_line, headline_of, roomy, suffices, line_room};

use lent::scratch::Scratch;
use model::{Model, Still};
use output::{Piece, write_line};
use packed::Packed;
use reach::reach;
use refusal::Refusal;

// The bytes that a slice for a line needs.
pub const LINE_ROOM: usize = 1024;

// Writes the first line of the report on a file, and gives its length. The slice is lent and a length is given: a rule of the
// project, no heap in libraries.
pub fn headline(bytes: &[u8], out: &mut [u8], scratch: &mut [u16]) -> Result<usize, Refusal>
    ensures value { result ≡ (if suffices bytes.now (length out.old) (length scratch.old) then Ok (length (headline_of bytes.now)) else Err SliceTooSmall) }
    ensures after { out.new ≡ (if is_ok result then headline_of bytes.now ++ drop (length (headline_of bytes.now)) out.old else out.old) }
    ensures within { IfOk result (λ n. n ≤ length out.old) }
    ensures room { LINE_ROOM ≡ line_room }
    ensures counts { is_ok result ≡ true → is_ok (verdict narrow bytes.now) ≡ true → Visits (spells narrow bytes.now) (visited_count (spells narrow bytes.now)) }
    ensures zeros { scratch.new ≡ replicate (length scratch.old) 0 }
{
    let guard = Scratch(scratch);
    match Packed::try_from(bytes) {
        Ok(model) => tell_model(&model, out, &mut *guard.0),
        Err(cause) => tell_refusal(cause, out, &*guard.0),
    }
}

// Writes the line of a model. That a length is within the slice is said here for `headline`, which owes it.
// The two slices are what `headline` was lent; a struct of them would be no plainer.
fn tell_model<M: Model>(model: &M, out: &mut [u8], scratch: &mut [u16]) -> Result<usize, Refusal>
    ensures value { let S = M.meaning model.now in result ≡ (if roomy S.states (length out.old) (length scratch.old) then Ok (length (model_line S)) else Err SliceTooSmall) }
    ensures after { let line = model_line (M.meaning model.now) in out.new ≡ (if is_ok result then line ++ drop (length line) out.old else out.old) }
    ensures within { IfOk result (λ n. n ≤ length out.old) }
    ensures counts { let S = M.meaning model.now in (is_ok result ≡ true → Visits S (visited_count S)) }
{
    let states = model.states();
    check_room(out, scratch, states)?;
    let reachable = reach(model, scratch)?;
    let pieces = [
        Piece::Text(b"states "),
        Piece::Number(u32::from(states)),
        Piece::Text(b" reachable "),
        Piece::Number(u32::from(reachable)),
        Piece::Text(b" propositions "),
        Piece::Number(u32::from(model.propositions())),
        Piece::Text(b"\n"),
    ];
    write_line(out, &pieces)
}

// Writes the line of a refused file, for which slices that are long enough for the still model suffice.
fn tell_refusal(cause: Refusal, out: &mut [u8], scratch: &[u16]) -> Result<usize, Refusal>
    ensures value { result ≡ (if roomy still.states (length out.old) (length scratch.now) then Ok (length (refusal_line (number_of cause))) else Err SliceTooSmall) }
    ensures after { let line = refusal_line (number_of cause) in out.new ≡ (if is_ok result then line ++ drop (length line) out.old else out.old) }
    ensures within { IfOk result (λ n. n ≤ length out.old) }
{
    check_room(out, scratch, Still.states())?;
    let pieces = [
        Piece::Text(b"model refused "),
        Piece::Number(u32::from(cause.number())),
        Piece::Text(b"\n"),
    ];
    write_line(out, &pieces)
}

// Whether the slices are long enough for the line of a model with so many states.
fn check_room(out: &[u8], scratch: &[u16], states: u16) -> Result<(), Refusal>
    ensures { result ≡ (if roomy states (length out.now) (length scratch.now) then Ok tt else Err SliceTooSmall) }
{
    if out.len() < LINE_ROOM || scratch.len() < 4 * usize::from(states) {
        return Err(Refusal::SliceTooSmall);
    }
    Ok(())
}
