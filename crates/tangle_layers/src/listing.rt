//! The lines that are printed, word by word.
use itoa::{Buffer, Integer};
use std::fmt;
use std::slice::from_ref;
use tangle_lines::{Sink, write_after};
use tangle_scan::Span;

/// The digits of a byte that is not printed as it is.
const DIGITS: &[u8; 16] = b"0123456789abcdef";

/// Lines of words. After the first write that fails nothing is written; the sink counts it.
#[derive(Drop)]
pub struct Listing<S> {
    sink: S,
}

impl<S: Sink> Listing<S> {
    /// A listing that has no line yet.
    pub fn new(sink: S) -> Self {
        Listing { sink }
    }

    /// The sink, after the last line.
    pub fn into_sink(self) -> S {
        self.sink
    }

    fn write(&mut self, bytes: &[u8]) {
        if self.sink.failures() == 0 {
            let _ = write_after(&mut self.sink, Ok(0), bytes);
        }
    }

    /// Begins a line with this word.
    pub fn begin(&mut self, word: &[u8]) {
        self.write(word);
    }

    /// Begins a line that belongs to the last one with this word.
    pub fn begin_inner(&mut self, word: &[u8]) {
        self.write(b"  ");
        self.write(word);
    }

    /// Adds a word, or several.
    pub fn word(&mut self, word: &[u8]) {
        self.write(b" ");
        self.write(word);
    }

    /// Adds the word if it holds.
    pub fn word_if(&mut self, holds: bool, word: &[u8]) {
        if holds {
            self.word(word);
        }
    }

    /// Adds a number.
    pub fn number<I: Integer>(&mut self, number: I) {
        self.write(b" ");
        self.digits(number);
    }

    /// Adds bytes as text.
    pub fn text(&mut self, bytes: &[u8]) {
        self.write(b" ");
        self.quoted(bytes);
    }

    /// Adds the place of a line of a file.
    pub fn place(&mut self, file: &[u8], line: u32) {
        self.text(file);
        self.write(b":");
        self.digits(line);
    }

    /// Begins a line that belongs to the last one with this word, and adds the text that begins at
    /// this offset in a range of a source line.
    pub fn begin_text(&mut self, word: &[u8], span: Option<&Span>, offset: usize, text: &[u8]) {
        self.begin_inner(word);
        if let Some(span) = span {
            let start = offset.wrapping_add(span.start as usize);
            self.number(span.line);
            self.write(b":");
            self.digits(start);
            self.write(b"-");
            self.digits(start.wrapping_add(text.len()));
        }
        self.text(text);
    }

    /// Ends the line.
    pub fn end(&mut self) {
        self.write(b"\n");
    }

    /// Begins a line that belongs to the last one with text whose bytes follow.
    pub fn open_text(&mut self) {
        self.write(b"  \"");
    }

    /// Ends the text and its line.
    pub fn close_text(&mut self) {
        self.write(b"\"\n");
    }

    fn digits<I: Integer>(&mut self, number: I) {
        let mut digits = Buffer::new();
        self.write(digits.format(number).as_bytes());
    }

    fn quoted(&mut self, bytes: &[u8]) {
        self.write(b"\"");
        for byte in bytes {
            self.text_byte(*byte);
        }
        self.write(b"\"");
    }

    /// Writes a byte of text.
    pub fn text_byte(&mut self, byte: u8) {
        match byte {
            b'"' => self.write(b"\\\""),
            b'\\' => self.write(b"\\\\"),
            b'\n' => self.write(b"\\n"),
            b' '..=b'~' => self.write(from_ref(&byte)),
            _ => {
                self.write(b"\\x");
                self.write(from_ref(&DIGITS[byte as usize / 16]));
                self.write(from_ref(&DIGITS[byte as usize % 16]));
            }
        }
    }
}

impl<S: Sink> fmt::Write for Listing<S> {
    fn write_str(&mut self, text: &str) -> fmt::Result {
        self.write(text.as_bytes());
        Ok(())
    }
}
