// Files opened as models.
ghost use Rattle.std.specs.Prelude.{◌≡◌, true, is_ok};
ghost use Rattle.structure.specs.Structure.{still};
ghost use Rattle.packed.specs.FileOf.{file_of};
ghost use Rattle.packed.specs.Layout.{narrow};
ghost use Rattle.packed.specs.Opening.{Opens};
ghost use Rattle.packed.specs.Verdict.{verdict, opened};

use crate::{File, Packed};
// `Model` itself is a word of the language, so an impl names the trait otherwise.
use model::Model as FiniteModel;
use refusal::Refusal;

// The still model as a file: one state, no propositions, a step to itself.
const STILL: [u8; 3] = [0, 0, 4];

// The model that a file means, or the first cause for which it is refused.
impl<'a> TryFrom<&'a [u8]> for Packed<'a> {
    type Error = Refusal;

    ghost try_from_gives = { λ bytes result. Opens (⟦<Packed<'a> as FiniteModel>⟧.meaning) bytes.now result };

    fn try_from(bytes: &'a [u8]) -> Result<Packed<'a>, Refusal> {
        let file = File::read(bytes);
        file.judge()?;
        Ok(Packed { file })
    }
}

// The model that a file means, or the still model where `inspect` refuses it. Packed again, an accepted file is the same bytes.
pub fn open<'a>(bytes: &'a [u8]) -> Packed<'a>
    ensures meaning { ⟦<Packed<'a> as FiniteModel>⟧.meaning result ≡ opened narrow bytes.now }
    ensures again { is_ok (verdict narrow bytes.now) ≡ true → file_of narrow (⟦<Packed<'a> as FiniteModel>⟧.meaning result) ≡ bytes.now }
{
    match Packed::try_from(bytes) {
        Ok(model) => model,
        Err(_) => still_file(),
    }
}

fn still_file() -> Packed<'static>
    ensures { ⟦<Packed<'static> as FiniteModel>⟧.meaning result ≡ still }
{
    Packed {
        file: File::read(&STILL),
    }
}
