//! Readers that report their bytes and count their failures.
ghost use Rattle.std.specs.Prelude.{◌≡◌, ℕ, ◌≤◌, List, length, Option, None, IfSome};
ghost use Rattle.tangle_streams.specs.Feeds.{Gives, counted_read};

use std::io::Read;

/// A reader of bytes.
pub trait Feed {
    // The bytes left to read; `None` if the reader does not report them.
    ghost remaining: { Self → Option (List ℕ) } = { λ _. None };

    // The number of failed calls, which saturates at 2^64 - 1.
    ghost failures: { Self → ℕ };

    /// Reads into the front of the buffer, and returns the number of bytes read: 0 is the end,
    /// unless the buffer is empty. `None` is a failure, which is counted.
    fn fill(&mut self, buffer: &mut [u8]) -> Option<usize>
        ensures within { IfSome result (λ n. n ≤ length buffer.old) }
        ensures reported { Gives (remaining self.old) (remaining self.new) buffer.new result }
        ensures failed { failures self.new ≡ counted_read (failures self.old) result };

    /// The number of failed calls, which saturates at 2^64 - 1.
    fn failures(&self) -> u64
        ensures { result ≡ failures self.now };
}

/// A feed that reads from any `Read`, and counts the errors.
#[derive(Drop)]
pub struct IoFeed<R> {
    inner: R,
    failures: u64,
}

impl<R: Read> IoFeed<R> {
    /// A feed of this reader, with no failure counted. It reports the bytes that the reader
    /// reports.
    pub fn new(inner: R) -> Self
        ensures inner { result.inner ≡ inner }
        ensures unfailed { result.failures ≡ 0 }
        ensures reports { ⟦<IoFeed<R> as Feed>⟧.remaining result ≡ R.remaining inner }
        ensures reports_no_failure { ⟦<IoFeed<R> as Feed>⟧.failures result ≡ 0 }
    {
        IoFeed { inner, failures: 0 }
    }
}

impl<R: Read> Feed for IoFeed<R> {
    ghost remaining = { λ s. R.remaining s.inner };

    ghost failures = { λ s. s.failures };

    fn fill(&mut self, buffer: &mut [u8]) -> Option<usize> {
        match self.inner.read(buffer) {
            Ok(n) => Some(n),
            Err(_) => {
                self.failures = self.failures.saturating_add(1);
                None
            }
        }
    }

    fn failures(&self) -> u64 {
        self.failures
    }
}
