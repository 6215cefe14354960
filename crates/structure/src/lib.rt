// The meaning of models: structures, their limits, their paths. The definitions stand in specs/, the laws in proofs/.
#![tactic(auto)]

ghost use Rattle.std.specs.Prelude.{◌≡◌};
ghost use Rattle.structure.specs.Structure.{most_states, most_propositions};

// The most states that a model may have. Who lends slices for models that it does not know takes their sizes from here.
pub const MOST_STATES: u16 = 256;

// The most propositions that a model may have.
pub const MOST_PROPOSITIONS: u8 = 31;

// The two limits: the constants are those of the definitions.
pub fn limits() -> (u16, u8)
    ensures value { result ≡ (256, 31) }
    ensures defined { result ≡ (most_states, most_propositions) }
    ensures constants { (MOST_STATES ≡ most_states) × (MOST_PROPOSITIONS ≡ most_propositions) }
{
    (MOST_STATES, MOST_PROPOSITIONS)
}
