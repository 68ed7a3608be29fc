// A chain of sixteen steps, of which one is set.
ghost use Rattle.std.specs.Prelude.{◌≡◌};
ghost use Rattle.store.specs.Chains.{is_set, moved_to};

#[derive(Clone, Copy, Debug, PartialEq, Eq)]
pub struct Chain {
    pub set: u8,
}

impl Chain {
    pub fn is_set(self, step: u8) -> bool
        ensures { result ≡ is_set self step }
    {
        self.set == step
    }

    // The chain once a step is set.
    pub fn moved_to(self, step: u8) -> Chain
        ensures { result ≡ moved_to self step }
    {
        Chain { set: step }
    }
}
