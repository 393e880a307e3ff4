// What the checker knows, as one value.
ghost use Rattle.std.specs.Prelude.{◌≡◌};
ghost use Rattle.check_equality.specs.Links.{Labelled};
ghost use Rattle.check_state.specs.States.{Wf, slots_in};

use check_equality::State;

// The keys of the slots; and bytes, which are the slots' labels, and what is known besides (`State` in check_equality). Two slots have one
// label where the facts link their terms.
#[derive(Clone, Copy)]
pub struct Known {
    pub keys: [u64; State::SLOTS],
    pub bytes: [u8; State::BYTES],
    pub ghost sound: { ∥ Wf keys bytes ∥₁ },
}

impl Known {
    // How many slots are taken: those before the facts', and two for each fact.
    pub fn slots(&self) -> usize
        ensures { result ≡ slots_in self.now.bytes }
    {
        State::LEFT + 2 * (self.bytes[State::FACTS] as usize)
    }

    // The label of a term by its key, or NO_LABEL.
    pub fn label_of(&self, k: u64) -> u8
        ensures { Labelled self.now.keys self.now.bytes (slots_in self.now.bytes) k result }
    {
        check_equality::label_of(&self.keys, &self.bytes, self.slots(), k)
    }
}
