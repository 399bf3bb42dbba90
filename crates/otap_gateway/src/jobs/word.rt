//! A word that a job is given.
ghost use Rattle.std.specs.Prelude.{◌≡◌};

use std::marker::Model;

/// A word, by its text.
#[derive(Drop)]
pub(crate) struct Word<'w> {
    text: &'w str,
}

impl<'w> Model for Word<'w> {
    ghost use Rattle.std.specs.Prelude.{List, ℕ};

    ghost Value = { List ℕ };

    ghost view = { λ w. w.text.now };
}

impl<'w> Word<'w> {
    pub(crate) fn new(text: &'w str) -> Word<'w>
        ensures { result ≡ text.now }
    {
        Word { text }
    }

    pub(crate) fn text(&self) -> &'w str
        ensures { result.now ≡ self.now }
    {
        self.text
    }
}
