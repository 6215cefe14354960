// The worked pairs, answered by the code and, in the contract, by the definitions.
ghost use Rattle.std.specs.Prelude.{◌≡◌, [], ◌∷◌, Some, None};
ghost use Rattle.structure.specs.Next.{next_of};
ghost use Rattle.figures.specs.PairTables.{Copies, Mixed, Loopless};

use model::Model;
use packed::open;
use pair::Pair;

// The steps of state 0 in the pair of two copies of a file, one after another and then none.
pub fn pair_figures() -> [Option<u16>; 4]
    ensures value { result ≡ Some 0 ∷ Some 1 ∷ Some 2 ∷ None ∷ [] }
    ensures copies { Copies }
    ensures mixed { Mixed }
    ensures loopless { Loopless }
{
    let file = open(&[0x01, 0x00, 0x0f, 0x20]);
    first_steps(&Pair::new(file, file))
}

// The smallest steps of state 0 that are not below 0, 1, 2 and 3.
fn first_steps<M: Model>(model: &M) -> [Option<u16>; 4]
    ensures { let S = M.meaning model.now in result ≡ next_of S 0 0 ∷ next_of S 0 1 ∷ next_of S 0 2 ∷ next_of S 0 3 ∷ [] }
{
    [0, 1, 2, 3].map(|t| model.next(0, t))
}
