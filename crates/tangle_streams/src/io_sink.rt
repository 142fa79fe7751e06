//! Sinks over the standard library's writers.
ghost use Rattle.std.specs.Prelude.{◌≡◌, ◌⊎◌};
ghost use Rattle.std.specs.Io.KnownBytes.{Keeps};
ghost use Rattle.tangle_streams.specs.Streams.{one_more_failure};

use crate::sinks::Sink;
use std::io::Write;

/// A sink that writes to any `Write`, and counts the failures.
#[derive(Drop)]
pub struct IoSink<W> {
    inner: W,
    failures: u64,
}

impl<W: Write> IoSink<W> {
    /// A sink over this writer, with no failure counted. It reports the bytes that the writer
    /// reports.
    pub fn new(inner: W) -> Self
        ensures inner { result.inner ≡ inner }
        ensures unfailed { result.failures ≡ 0 }
        ensures reports { ⟦<IoSink<W> as Sink>⟧.stream result
            ≡ record { taken = W.contents inner; failures = 0 } }
    {
        IoSink { inner, failures: 0 }
    }

    /// The writer.
    pub fn into_inner(self) -> W
        ensures { result ≡ self.inner }
    {
        self.inner
    }

    /// Flushes the writer. A failed flush adds one to the count of failures. The library's contract
    /// does not say when a flush fails, so no clause does here: tests show that it is counted.
    pub fn flush(&mut self)
        ensures kept { Keeps (W.contents self.old.inner) (W.contents self.new.inner) }
        ensures failed { (self.new.failures ≡ self.old.failures)
            ⊎ (self.new.failures ≡ one_more_failure self.old.failures) }
    {
        if self.inner.flush().is_err() {
            self.count_failure();
        }
    }

    fn count_failure(&mut self)
        ensures inner { self.new.inner ≡ self.old.inner }
        ensures failed { self.new.failures ≡ one_more_failure self.old.failures }
    {
        self.failures = self.failures.saturating_add(1);
    }
}

impl<W: Write> Sink for IoSink<W> {
    ghost stream = { λ s. record { taken = W.contents s.inner; failures = s.failures } };

    fn take(&mut self, bytes: &[u8]) -> Option<usize> {
        match self.inner.write(bytes) {
            Ok(n) => {
                if n == 0 && !bytes.is_empty() {
                    self.count_failure();
                }
                Some(n)
            }
            Err(_) => {
                self.count_failure();
                None
            }
        }
    }

    fn failures(&self) -> u64 {
        self.failures
    }
}
