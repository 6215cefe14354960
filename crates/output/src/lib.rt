// A line of output as a list of pieces, written into a lent slice of bytes.
#![tactic(auto)]

ghost use Rattle.std.specs.Prelude.{◌≡◌, ◌≤◌, ◌++◌, length, drop, if◌then◌else◌, Some, None, Ok, Err, nat_le};
ghost use Rattle.refusal.specs.declared.Refusal.TheVariants.{SliceTooSmall};
ghost use Rattle.output.specs.Pieces.{spelled, spelled_all};

use itoa::Buffer;
use refusal::Refusal;

// One piece of an output line.
#[derive(Clone, Copy)]
pub enum Piece<'a> {
    // These bytes.
    Text(&'a [u8]),
    // This number in decimal.
    Number(u32),
}

impl Piece<'_> {
    // The bytes of the piece. Those of a number are put into the buffer.
    fn spell<'b>(&'b self, buffer: &'b mut Buffer) -> &'b [u8]
        ensures { result.now ≡ spelled self.now }
    {
        match *self {
            Piece::Text(bytes) => bytes,
            Piece::Number(number) => buffer.format(number).as_bytes(),
        }
    }
}

// Writes the pieces one after another at the front of `out`, and gives their length together.
// Where they are longer than `out`, it writes nothing. The slice is lent and a length is given: a rule of the project: no heap in libraries.
pub fn write_line(out: &mut [u8], pieces: &[Piece]) -> Result<usize, Refusal>
    ensures value { let text = spelled_all pieces.now in result ≡ (if nat_le (length text) (length out.old) then Ok (length text) else Err SliceTooSmall) }
    ensures after { let text = spelled_all pieces.now in out.new ≡ (if nat_le (length text) (length out.old) then text ++ drop (length text) out.old else out.old) }
{
    let total = measure(pieces, out.len()).ok_or(Refusal::SliceTooSmall)?;
    put_pieces(out, pieces);
    Ok(total)
}

// The length of the pieces together, unless it is above `limit`: no piece after the first that passes it is looked at. A `fold` looks at
// all of them, and the `ensures` of a `try_fold` does not prove.
fn measure(pieces: &[Piece], limit: usize) -> Option<usize>
    ensures { let text = spelled_all pieces.now in result ≡ (if nat_le (length text) limit then Some (length text) else None) }
{
    let mut buffer = Buffer::new();
    let mut total = 0;
    for piece in pieces {
        let length = piece.spell(&mut buffer).len();
        if length > limit - total {
            return None;
        }
        total += length;
    }
    Some(total)
}

// Writes the pieces at the front of `out`, which has room for them. To keep the rest of the slice in place of a number was tried: an
// invariant cannot name the parts that are written already, and the proof does not close.
fn put_pieces(out: &mut [u8], pieces: &[Piece])
    requires { length (spelled_all pieces.now) ≤ length out.old }
    ensures { out.new ≡ spelled_all pieces.now ++ drop (length (spelled_all pieces.now)) out.old }
{
    let mut buffer = Buffer::new();
    let mut at = 0;
    for piece in pieces {
        let bytes = piece.spell(&mut buffer);
        out[at..at + bytes.len()].copy_from_slice(bytes);
        at += bytes.len();
    }
}

#[cfg(test)]
mod tests {
    use super::*;

    // A line of 38 bytes.
    fn write_sizes(out: &mut [u8]) -> Result<usize, Refusal> {
        write_line(
            out,
            &[
                Piece::Text(b"states "),
                Piece::Number(256),
                Piece::Text(b" reachable "),
                Piece::Number(7),
                Piece::Text(b" propositions "),
                Piece::Number(0),
                Piece::Text(b"\n"),
            ],
        )
    }

    #[test]
    fn later_bytes_stay(rt: HostRuntime) {
        let mut out = [b'.'; 40];
        assert_eq!(rt; write_sizes(&mut out), Ok(38));
        assert_eq!(rt; &out, b"states 256 reachable 7 propositions 0\n..");
    }

    #[test]
    fn short_slice_stays(rt: HostRuntime) {
        let mut out = [b'.'; 37];
        assert_eq!(rt; write_sizes(&mut out), Err(Refusal::SliceTooSmall));
        assert_eq!(rt; out, [b'.'; 37]);
    }
}
