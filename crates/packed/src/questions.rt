// An accepted file answers the five questions of a model.
ghost use Rattle.packed.specs.Layout.{narrow, spells};
ghost use Rattle.packed.specs.Kept.{spells_keeps};

use crate::{Packed, bit, first_one};
// `Model` itself is a word of the language, so an impl names the trait otherwise.
use model::Model as FiniteModel;

impl<'a> FiniteModel for Packed<'a> {
    ghost meaning = { λ p. spells narrow p.file.bytes.now };

    ghost keeps = { λ p. spells_keeps p.file.bytes.now p.accepted };

    fn states(&self) -> u16 {
        self.file.header.states
    }

    fn start(&self) -> u16 {
        self.file.header.start
    }

    fn propositions(&self) -> u8 {
        self.file.header.propositions
    }

    fn holds(&self, s: u16, p: u8) -> bool {
        if s >= self.file.header.states || p >= self.file.header.propositions {
            return false;
        }
        bit(self.file.bytes, self.file.row(s) + usize::from(p))
    }

    fn next(&self, s: u16, t: u16) -> Option<u16> {
        if s >= self.file.header.states {
            return None;
        }
        let steps = self.file.steps(s);
        let end = steps + usize::from(self.file.header.states);
        let place = first_one(self.file.bytes, steps + usize::from(t), end)?;
        Some((place - steps) as u16)
    }
}
