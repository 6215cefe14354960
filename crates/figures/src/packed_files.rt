// The worked packed files, judged by the code and, in the contract, by the definitions.
ghost use Rattle.std.specs.Prelude.{◌≡◌, [], ◌∷◌, map, Ok, Err};
ghost use Rattle.refusal.specs.declared.Refusal.TheVariants.{TooFewBytes, TooManyBytes, FillingBitSet, StartNotAState, StateWithoutStep};
ghost use Rattle.structure.specs.Structure.{still};
ghost use Rattle.packed.specs.Layout.{narrow};
ghost use Rattle.packed.specs.Verdict.{verdict, opened};
ghost use Rattle.figures.specs.Files.{two_states_file, two_states_model, still_file, ThreeStates, FullFile, LooseFile, Sample, Reached, Refused, spoken};

use packed::inspect;
use refusal::Refusal;

// What `inspect` says of each worked file; the clause `numbers` says it as numbers. A `map` over the files was tried: its proof does not
// close.
pub fn packed_figures() -> [Result<(), Refusal>; 12]
    ensures verdicts { result ≡ Ok tt ∷ Ok tt ∷ Ok tt ∷ Ok tt ∷ Ok tt ∷ Ok tt ∷ Err TooFewBytes ∷ Err TooManyBytes ∷ Err FillingBitSet ∷ Err FillingBitSet ∷ Err StartNotAState ∷ Err StateWithoutStep ∷ [] }
    ensures numbers { map spoken result ≡ 0 ∷ 0 ∷ 0 ∷ 0 ∷ 0 ∷ 0 ∷ 1 ∷ 2 ∷ 3 ∷ 3 ∷ 4 ∷ 5 ∷ [] }
    ensures two_states { opened narrow two_states_file ≡ two_states_model }
    ensures still { opened narrow still_file ≡ still }
    ensures three_states { ThreeStates }
    ensures full { FullFile }
    ensures loose { LooseFile }
    ensures sample { Sample }
    ensures reached { Reached }
    ensures refused { Refused }
{
    [
        judged(&[0x01, 0x00, 0x0f, 0x20]),
        judged(&[0x00, 0x00, 0x04]),
        judged(&[0x02, 0x00, 0x0d, 0xd4, 0x80]),
        judged(&[0x00, 0x00, 0x17]),
        judged(&[0x01, 0x00, 0x0e, 0x20]),
        judged(&[0x05, 0x00, 0x10, 0xc0, 0x20, 0x34, 0x08, 0x0a, 0x08]),
        judged(&[0x01, 0x00, 0x0f]),
        judged(&[0x01, 0x00, 0x0f, 0x20, 0x00]),
        judged(&[0x01, 0x00, 0x0f, 0x21]),
        judged(&[0x01, 0x00, 0x0f, 0x30]),
        judged(&[0x01, 0x02, 0x0f, 0x20]),
        judged(&[0x01, 0x00, 0x0f, 0x00]),
    ]
}

// What `inspect` says of a file, for all twelve at one place: a wrong telling is refused at this clause, whichever files are judged.
fn judged(bytes: &[u8]) -> Result<(), Refusal>
    ensures { result ≡ verdict narrow bytes.now }
{
    inspect(bytes)
}
