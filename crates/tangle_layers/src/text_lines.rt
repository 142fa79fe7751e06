//! Bytes that are printed as text, a line of them on each line.
use crate::listing::Listing;
use tangle_lines::Sink;

/// Whether a line that is printed as text has its line feed.
#[derive(Clone, Copy, PartialEq, Eq)]
pub enum LineFeeds {
    Shown,
    Dropped,
}

/// A sink whose bytes a listing gets as text, on lines that belong to its last line: one for each
/// line of the bytes. It takes all bytes; the listing's sink counts what fails.
#[derive(Drop)]
pub struct TextLines<'l, S> {
    listing: &'l mut Listing<S>,
    line_feeds: LineFeeds,
    is_open: bool,
}

impl<'l, S: Sink> TextLines<'l, S> {
    /// No line yet.
    pub fn new(listing: &'l mut Listing<S>, line_feeds: LineFeeds) -> Self {
        TextLines {
            listing,
            line_feeds,
            is_open: false,
        }
    }

    /// Ends a last line that has no line feed.
    pub fn close(self) {
        if self.is_open {
            self.listing.close_text();
        }
    }

    fn add(&mut self, byte: u8) {
        if !self.is_open {
            self.listing.open_text();
        }
        self.is_open = byte != b'\n';
        if self.is_open || self.line_feeds == LineFeeds::Shown {
            self.listing.text_byte(byte);
        }
        if !self.is_open {
            self.listing.close_text();
        }
    }
}

impl<'l, S: Sink> Sink for TextLines<'l, S> {
    ghost use Rattle.std.specs.Prelude.{None};

    ghost stream = { λ _. record { taken = None; failures = 0 } };

    fn take(&mut self, bytes: &[u8]) -> Option<usize> {
        for byte in bytes {
            self.add(*byte);
        }
        Some(bytes.len())
    }

    fn failures(&self) -> u64 {
        0
    }
}
