// A model by its five questions. Whatever counts, packs or pairs models sees them only through this trait.
#![tactic(auto)]

ghost use Rattle.std.specs.Prelude.{◌≡◌};
ghost use Rattle.structure.specs.Structure.{Structure, Limits, still};
ghost use Rattle.structure.specs.Next.{next_of, Smallest};
ghost use Rattle.structure.proofs.StillKeeps.{still_keeps};

pub trait Model {
    // The structure that the model stands for.
    ghost meaning: { Self → Structure };

    // The number of states. That the meaning keeps the limits is said here too, since who asks through a `dyn` cannot name the law `keeps`.
    fn states(&self) -> u16
        ensures value { result ≡ (meaning self.now).states }
        ensures keeps { Limits (meaning self.now) };

    // The starting state.
    fn start(&self) -> u16
        ensures { result ≡ (meaning self.now).start };

    // The number of propositions.
    fn propositions(&self) -> u8
        ensures { result ≡ (meaning self.now).propositions };

    // Whether proposition `p` is true at state `s`. Of what the model lacks nothing is true.
    fn holds(&self, s: u16, p: u8) -> bool
        ensures { result ≡ (meaning self.now).label s p };

    // The smallest state not below `t` to which `s` has a step.
    fn next(&self, s: u16, t: u16) -> Option<u16>
        ensures value { result ≡ next_of (meaning self.now) s t }
        ensures smallest { Smallest ((meaning self.now).step s) t result };

    // Whatever a model of this kind means keeps the limits: each implementation has to prove it.
    ghost keeps: { (model : Self) → Limits (meaning model) };
}

// What who asks a model of an unknown kind learns of it.
fn ask(model: &dyn Model) -> u16
    ensures value { result ≡ (meaning model.now).states }
    ensures keeps { Limits (meaning model.now) }
{
    model.states()
}

// The model with one state, no propositions, and a step to itself.
#[derive(Clone, Copy, Debug)]
pub struct Still;

impl Model for Still {
    ghost meaning = { λ _. still };

    ghost keeps = { λ _. still_keeps };

    fn states(&self) -> u16 {
        1
    }

    fn start(&self) -> u16 {
        0
    }

    fn propositions(&self) -> u8 {
        0
    }

    fn holds(&self, _s: u16, _p: u8) -> bool {
        false
    }

    fn next(&self, s: u16, t: u16) -> Option<u16> {
        (s == 0 && t == 0).then_some(0)
    }
}

// The still model.
pub fn still_model() -> Still
    ensures { ⟦<Still as Model>⟧.meaning result ≡ still }
{
    Still
}
