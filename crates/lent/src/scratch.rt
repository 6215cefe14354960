// Lent working places that are cleared when their user is done with them.
ghost use Rattle.std.specs.Prelude.{◌≡◌, length, replicate};

// Has the use of the lent places until it is dropped, and then fills them with zeros.
pub struct Scratch<'a>(pub &'a mut [u16]);

impl Drop for Scratch<'_> {
    fn drop(self)
        ensures { self.exit.0.now ≡ replicate (length self.entry.0.now) 0 }
    {
        clear(&mut *self.0);
        // Takes the guard apart, so that it is not dropped again.
        let Scratch(_) = self;
    }
}

// Fills the places with zeros.
pub fn clear(places: &mut [u16])
    ensures { places.new ≡ replicate (length places.old) 0 }
{
    places.fill(0);
}

#[cfg(test)]
mod tests {
    use super::*;
    use refusal::Refusal;

    // Says nothing of what it leaves in the places.
    fn scribble(places: &mut [u16], mark: u16) -> Result<(), Refusal> {
        if places.len() < 2 {
            return Err(Refusal::SliceTooSmall);
        }
        places[0] = mark;
        places[1] = mark;
        Ok(())
    }

    // Leaves zeros, whether it is refused or not.
    fn work(memory: &mut [u16], mark: u16) -> Result<u16, Refusal>
        ensures { memory.new ≡ replicate (length memory.old) 0 }
    {
        let scratch = Scratch(memory);
        if mark == 0 {
            return Err(Refusal::RowAbsent);
        }
        scribble(&mut *scratch.0, mark)?;
        Ok(mark)
    }

    #[test]
    fn leaves_zeros(rt: HostRuntime) {
        let mut memory = [7, 8, 9];
        assert!(rt; work(&mut memory, 5).is_ok());
        assert_eq!(rt; memory, [0, 0, 0]);
        let mut short = [7];
        assert!(rt; work(&mut short, 5).is_err());
        assert_eq!(rt; short, [0]);
    }
}
