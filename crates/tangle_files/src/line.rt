//! A line, which shares the text of its file.
ghost use Rattle.std.specs.Prelude.{◌≡◌, ◌+◌, ◌-◌, ◌^◌, ◌<◌, ◌≤◌, length, IfOk};
ghost use Rattle.tangle_files.specs.Adding.{longest_line};
ghost use Rattle.tangle_files.specs.Sharing.{position_of, slice_of};

use crate::shared_slice::SharedSlice;
use std::alloc::AllocError;
use std::marker::Model;
use std::rc::Rc;

/// A position is `low + high * LOW_POSITIONS`.
const LOW_POSITIONS: usize = 4_294_967_296;

/// Positions in a text are below this limit, 2^48; no text in memory is that long.
pub(crate) const MOST_POSITIONS: usize = 281_474_976_710_656;

/// A line without its trailing spaces and its line feed: at most 65,535 bytes. The lines of a file
/// share the text of the file. The position of a line in the text is stored in two parts, so that a
/// line takes 16 bytes, although a text may be longer than 4 GiB.
// An inserted or replaced line has a text of its own.
#[derive(Drop)]
pub struct Line {
    text: Rc<Vec<u8>>,
    low: u32,
    high: u16,
    size: u16,
}

impl Model for Line {
    ghost use Rattle.std.specs.Prelude.{List, ℕ, ◌+◌, ◌≤◌, length};
    ghost use Rattle.tangle_files.specs.Sharing.{slice_of, position_of};

    ghost Value = { List ℕ };

    ghost view = { λ l. slice_of l.text.value.items (position_of l.low l.high) l.size };

    ghost invariant = { λ l. position_of l.low l.high + l.size ≤ length l.text.value.items };
}

/// The position of which these are the two parts.
fn position(low: u32, high: u16) -> usize
    ensures { result ≡ position_of low high }
{
    low as usize + high as usize * LOW_POSITIONS
}

impl Line {
    /// The line that has `size` bytes from `position` of the text.
    pub(crate) fn new(text: Rc<Vec<u8>>, position: usize, size: u16) -> Self
        requires near { position < 2 ^ 48 }
        requires within { position + size ≤ length text.value.items }
        ensures { result ≡ slice_of text.value.items position size }
    {
        Line {
            text,
            low: (position % LOW_POSITIONS) as u32,
            high: (position / LOW_POSITIONS) as u16,
            size,
        }
    }

    /// A copy of the line, which shares the text.
    pub(crate) fn share(&self) -> Result<Line, AllocError>
        ensures { IfOk result (λ line. line ≡ self.now) }
    {
        Ok(Line {
            text: self.text.clone()?,
            low: self.low,
            high: self.high,
            size: self.size,
        })
    }

    /// The bytes of the line.
    pub fn bytes(&self) -> &[u8]
        ensures value { result.now ≡ self.now }
        ensures short { length result.now ≤ longest_line }
    {
        let position = position(self.low, self.high);
        &self.text.as_slice()[position..position + self.size as usize]
    }

    /// The bytes of the line from `start` up to `end`, as far as the line has them. They share the
    /// text.
    ///
    /// # Errors
    ///
    /// Fails if the text has too many shares to count.
    pub fn slice(&self, start: usize, end: usize) -> Result<SharedSlice, AllocError>
        ensures { IfOk result (λ slice. slice ≡ slice_of self.now start (end - start)) }
    {
        let end = end.min(self.size as usize);
        let start = start.min(end);
        let position = position(self.low, self.high) + start;
        Ok(SharedSlice::new(self.text.clone()?, position, end - start))
    }
}
