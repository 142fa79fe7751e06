//! The names of the output files.
ghost use Rattle.std.specs.Prelude.{◌≡◌, map};
ghost use Rattle.std.specs.Iterator.{YieldsFirstRef, item_count};

use std::marker::Model;
use tangle_expansion::Output;

/// The names of output files, in order: an iterator that allocates nothing.
#[derive(Drop)]
pub struct OutputNames<'a> {
    outputs: &'a [Output],
}

impl<'a> Model for OutputNames<'a> {
    ghost use Rattle.std.specs.Prelude.{ℕ, List, map};

    ghost Value = { List (List ℕ) };

    ghost view = { λ n. map (λ o. o.name) n.outputs.now };
}

impl<'a> OutputNames<'a> {
    /// Iterates over the names of these output files.
    pub(crate) fn new(outputs: &'a [Output]) -> OutputNames<'a>
        ensures { result ≡ map (λ o. o.name) outputs.now }
    {
        OutputNames { outputs }
    }
}

impl<'a> Iterator for OutputNames<'a> {
    type Item = &'a [u8];

    ghost next_gives = { YieldsFirstRef (λ names. names) };

    ghost remaining = { item_count (λ names. names) };

    fn next(&mut self) -> Option<&'a [u8]> {
        let (first, others) = self.outputs.split_first()?;
        self.outputs = others;
        Some(first.name())
    }
}
