// The arrays of memory, with what is true of every memory.
ghost use Rattle.std.specs.Prelude.{◌≡◌, true};
ghost use Rattle.memory.specs.Facts.{sizes_of, all_sizes, steps_lawful, all_lawful};
ghost use Rattle.number.specs.declared.limit.Width.TheVariants.{Word, Double};

use store::store::Store;

#[derive(Drop)]
pub struct Memory {
    pub store: Store,
    ghost whole: { sizes_of store ≡ all_sizes },
    ghost steps: { steps_lawful store.chains ≡ true },
    ghost output_words: { all_lawful Word store.output_words ≡ true },
    ghost marker_words: { all_lawful Word store.marker_words ≡ true },
    ghost constant_words: { all_lawful Word store.constant_words ≡ true },
    ghost marker_doubles: { all_lawful Double store.marker_doubles ≡ true },
    ghost constant_doubles: { all_lawful Double store.constant_doubles ≡ true },
}
