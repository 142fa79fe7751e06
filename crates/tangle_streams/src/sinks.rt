//! Writers that report the bytes that they took, and count their failures.
ghost use Rattle.std.specs.Prelude.{◌≡◌, ◌≤◌, length, IfSome};
ghost use Rattle.tangle_streams.specs.Streams.{Stream, Takes, counted_write};

/// A writer of bytes.
pub trait Sink {
    // The bytes that the writer has taken, if it reports them, and the number of its failures,
    // which saturates at 2^64 - 1.
    ghost stream: { Self → Stream };

    /// Writes a prefix of the bytes, and returns its length. `None` is a failure, and so is 0
    /// unless there are no bytes; failures are counted.
    fn take(&mut self, bytes: &[u8]) -> Option<usize>
        ensures within { IfSome result (λ n. n ≤ length bytes.now) }
        ensures reported { Takes (stream self.old).taken (stream self.new).taken bytes.now result }
        ensures failed { (stream self.new).failures
            ≡ counted_write (stream self.old).failures bytes.now result };

    /// The number of failures, which saturates at 2^64 - 1.
    fn failures(&self) -> u64
        ensures { result ≡ (stream self.now).failures };
}
