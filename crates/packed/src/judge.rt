// The judge of packed files.
ghost use Rattle.std.specs.Prelude.{◌≡◌, ◌+◌, ◌<◌, ◌≤◌, length};
ghost use Rattle.packed.specs.FileOf.{most_bytes};
ghost use Rattle.packed.specs.Layout.{narrow, size_of};
ghost use Rattle.packed.specs.Verdict.{filled, stuck, verdict, Judged};

use crate::{File, bit, first_one};
use refusal::Refusal;

// Accepts a file, or says the first cause for which it is refused; and what that tells of the file.
pub fn inspect(bytes: &[u8]) -> Result<(), Refusal>
    ensures value { result ≡ verdict narrow bytes.now }
    ensures judged { Judged narrow bytes.now result }
{
    File::read(bytes).judge()
}

impl File<'_> {
    // The causes in their order, each judged over the whole file before the next.
    pub(crate) fn judge(&self) -> Result<(), Refusal>
        ensures { result ≡ verdict narrow self.now.bytes.now }
    {
        let size = self.size();
        if self.bytes.len() < size {
            return Err(Refusal::TooFewBytes);
        }
        if self.bytes.len() > size {
            return Err(Refusal::TooManyBytes);
        }
        if self.has_filling_bit() {
            return Err(Refusal::FillingBitSet);
        }
        if self.header.start >= self.header.states {
            return Err(Refusal::StartNotAState);
        }
        if self.has_dead_end() {
            return Err(Refusal::StateWithoutStep);
        }
        Ok(())
    }

    // The bytes that the fields take.
    fn size(&self) -> usize
        ensures value { result ≡ size_of narrow self.now.bytes.now }
        ensures bound { result ≤ most_bytes }
    {
        self.header.size()
    }

    // Whether a bit after the layout's last is 1.
    fn has_filling_bit(&self) -> bool
        requires { length self.now.bytes.now ≤ most_bytes }
        ensures { result ≡ filled narrow self.now.bytes.now }
    {
        let end = self.row(self.header.states);
        first_one(self.bytes, end, self.bytes.len() * 8).is_some()
    }

    // Whether some state has no step. A rule of the project: two loops, of which the outer is left by its label at the first state without a
    // step. The flag tells why it ended.
    fn has_dead_end(&self) -> bool
        ensures { result ≡ stuck narrow self.now.bytes.now }
    {
        let mut dead_end = false;
        'states: for s in 0..self.header.states {
            let steps = self.steps(s);
            for t in 0..self.header.states {
                if bit(self.bytes, steps + usize::from(t)) {
                    continue 'states;
                }
            }
            dead_end = true;
            break 'states;
        }
        dead_end
    }
}
