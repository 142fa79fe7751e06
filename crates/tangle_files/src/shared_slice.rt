//! A slice of a text that others share.
ghost use Rattle.std.specs.Prelude.{◌≡◌, ◌≤◌, ◌+◌, length, IfOk};
ghost use Rattle.tangle_files.specs.Sharing.{slice_of};

use std::alloc::{AllocError, Global};
use std::marker::Model;
use std::rc::Rc;

/// Bytes of a text, which the lines of a file and other slices may share. The text is freed with the
/// last of them.
#[derive(Drop)]
pub struct SharedSlice {
    text: Rc<Vec<u8>>,
    position: usize,
    size: usize,
}

impl Model for SharedSlice {
    ghost use Rattle.std.specs.Prelude.{List, ℕ, ◌+◌, ◌≤◌, length};
    ghost use Rattle.tangle_files.specs.Sharing.{slice_of};

    ghost Value = { List ℕ };

    ghost view = { λ s. slice_of s.text.value.items s.position s.size };

    ghost invariant = { λ s. s.position + s.size ≤ length s.text.value.items };
}

impl SharedSlice {
    /// The slice that has `size` bytes from `position` of the text.
    pub(crate) fn new(text: Rc<Vec<u8>>, position: usize, size: usize) -> Self
        requires { position + size ≤ length text.value.items }
        ensures { result ≡ slice_of text.value.items position size }
    {
        SharedSlice {
            text,
            position,
            size,
        }
    }

    /// The whole of a text, which nothing else shares.
    ///
    /// # Errors
    ///
    /// Fails if an allocation fails.
    pub fn whole(alloc: Global, text: Vec<u8>) -> Result<Self, AllocError>
        ensures { IfOk result (λ slice. slice ≡ text.items) }
    {
        let size = text.len();
        Ok(SharedSlice::new(Rc::new(alloc, text)?, 0, size))
    }

    /// The bytes of the slice.
    pub fn bytes(&self) -> &[u8]
        ensures { result.now ≡ self.now }
    {
        &self.text.as_slice()[self.position..self.position + self.size]
    }
}
