//! The bytes of a script that wait until their command is complete.
ghost use Rattle.std.specs.Prelude.{◌≡◌, ◌<◌, ◌≤◌, ◌+◌, ℕ, List, [], ◌++◌, length, take, drop};
ghost use Rattle.std.specs.Prelude.{IfSome, IfNone, OnOk, OnErr};
ghost use Rattle.std.specs.Io.KnownBytes.{Consumes, IsAtEnd, Keeps};
ghost use Rattle.tangle_streams.specs.Feeds.{counted_read};
ghost use Rattle.tangle_script.specs.BufferSpace.{in_use, chunk, stack_size};

use std::alloc::{AllocError, Global};
use tangle_streams::Feed;

/// The most bytes that one call reads.
pub const CHUNK: usize = 4096;

/// The size of the buffer on the stack: enough for one short command and a chunk after it.
const STACK_SIZE: usize = 2 * CHUNK;

/// The bytes that were read and are not yet answered. They are on the stack until a command with
/// more than 4,096 bytes comes. Until then a chunk fits after them.
#[derive(Drop)]
pub struct Buffer {
    short: [u8; STACK_SIZE],
    long: Vec<u8>,
    len: usize,
    ghost within: { len ≤ length (in_use short long.items) },
    ghost large: { stack_size ≤ length (in_use short long.items) },
}

// Reads at most `most` bytes into the space, after the first `len`. Returns the number of bytes
// read: 0 at the end, `None` where the reader failed.
#[tactic(auto, using(crate::proofs::BufferLemmas::read_after))]
fn fill_after<R: Feed>(feed: &mut R, space: &mut [u8], len: usize, most: usize) -> Option<usize>
    requires some { 0 < most }
    requires within { len + most ≤ length space.old }
    ensures within { IfSome result (λ n. n ≤ most) }
    ensures length { length space.new ≡ length space.old }
    ensures read { IfSome result (λ n. (chunk : List ℕ) × (length chunk ≡ n)
        × (take (len + n) space.new ≡ take len space.old ++ chunk)
        × Consumes (R.remaining feed.old) (R.remaining feed.new) chunk
        × (n ≡ 0 → IsAtEnd (R.remaining feed.new))) }
    ensures unread { IfNone result (Keeps (R.remaining feed.old) (R.remaining feed.new)) }
    ensures failed { R.failures feed.new ≡ counted_read (R.failures feed.old) result }
{
    feed.fill(&mut space[len..len + most])
}

// Moves the bytes from `from` to `len` to the front of the space.
#[tactic(auto, using(crate::proofs::BufferLemmas::moved))]
fn move_to_front(space: &mut [u8], from: usize, len: usize)
    requires ordered { from ≤ len }
    requires within { len ≤ length space.old }
    ensures length { length space.new ≡ length space.old }
    ensures moved { (n : ℕ) → n + from ≡ len → take n space.new ≡ drop from (take len space.old) }
{
    space.copy_within(from..len, 0);
}

impl Buffer {
    ghost use Rattle.tangle_script.specs.Buffer.{bytes, size};

    /// An empty buffer.
    pub fn new(alloc: Global) -> Self
        ensures { bytes result ≡ [] }
    {
        Buffer {
            short: [0; STACK_SIZE],
            long: Vec::new(alloc),
            len: 0,
        }
    }

    /// The bytes in the buffer.
    pub fn as_slice(&self) -> &[u8]
        ensures { result.now ≡ bytes self.now }
    {
        if self.long.is_empty() {
            return &self.short[..self.len];
        }
        &self.long.as_slice()[..self.len]
    }

    /// Makes space for another whole chunk after the bytes.
    ///
    /// # Errors
    ///
    /// `AllocError` where the allocation failed. Nothing is allocated while there are at most 4,096
    /// bytes.
    pub fn make_space(&mut self) -> Result<(), AllocError>
        ensures bytes { OnOk result (bytes self.new ≡ bytes self.old) }
        ensures space { OnOk result (length (bytes self.new) + chunk ≤ size self.new) }
        ensures err { OnErr result (chunk < length (bytes self.old)) }
    {
        if self.long.is_empty() {
            if self.len <= CHUNK {
                return Ok(());
            }
            self.long.extend_from_slice(&self.short)?;
        }
        if self.len + CHUNK <= self.long.len() {
            return Ok(());
        }
        self.long.resize(self.len + CHUNK, 0)
    }

    /// Reads at most `most` bytes after those in the buffer. Returns the number of bytes read: 0 at
    /// the end, `None` where the reader failed.
    pub fn read<R: Feed>(&mut self, feed: &mut R, most: usize) -> Option<usize>
        requires some { 0 < most }
        requires space { length (bytes self.old) + most ≤ size self.old }
        ensures within { IfSome result (λ n. n ≤ most) }
        ensures read { IfSome result (λ n. (chunk : List ℕ) × (length chunk ≡ n)
            × (bytes self.new ≡ bytes self.old ++ chunk)
            × Consumes (R.remaining feed.old) (R.remaining feed.new) chunk
            × (n ≡ 0 → IsAtEnd (R.remaining feed.new))) }
        ensures unread { IfNone result (Keeps (R.remaining feed.old) (R.remaining feed.new)) }
        ensures failed { R.failures feed.new ≡ counted_read (R.failures feed.old) result }
    {
        if self.long.is_empty() {
            let count = fill_after(feed, &mut self.short, self.len, most)?;
            self.len += count;
            return Some(count);
        }
        let count = fill_after(feed, self.long.as_mut_slice(), self.len, most)?;
        self.len += count;
        Some(count)
    }

    /// Drops the first `used` bytes.
    pub fn discard(&mut self, used: usize)
        requires { used ≤ length (bytes self.old) }
        ensures { bytes self.new ≡ drop used (bytes self.old) }
    {
        if self.long.is_empty() {
            move_to_front(&mut self.short, used, self.len);
        } else {
            move_to_front(self.long.as_mut_slice(), used, self.len);
        }
        self.len -= used;
    }
}
