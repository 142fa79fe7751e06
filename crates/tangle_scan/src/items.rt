//! The items of pieces and macros.
ghost use Rattle.std.specs.Prelude.{◌≡◌};

use std::marker::Model;
use tangle_lines::Origin;
use tangle_text::Span;

/// The number of values of the low half of an occurrence's number: 2 to the power of 32.
const LOW_NUMBERS: usize = 4_294_967_296;

/// The number of an occurrence, from 0. It is stored in two halves, so that an item takes 12 bytes,
/// not 16.
#[derive(Clone, Copy, Debug, PartialEq, Eq)]
pub struct OccurrenceNumber {
    low: u32,
    high: u32,
}

impl Model for OccurrenceNumber {
    ghost use Rattle.std.specs.Prelude.{ℕ, ◌+◌, ◌*◌, ◌^◌, ◌<◌, ◌/◌, ◌%◌};
    ghost use Rattle.std.proofs.lemmas.Nat.{mod-mul-add, div-mul-add};

    ghost Value = { ℕ };

    ghost view = { λ n. n.high * 2 ^ 32 + n.low };

    ghost invariant = { λ n. n.low < 2 ^ 32 };

    ghost inverse = { λ number. record { low = number % 2 ^ 32; high = number / 2 ^ 32 } };

    ghost inverse_ok = { λ n h i. record {
      low = mod-mul-add n.high (2 ^ 32) n.low h i;
      high = div-mul-add n.high (2 ^ 32) n.low h i;
    } };
}

impl OccurrenceNumber {
    /// Stores this number.
    pub(crate) fn new(number: usize) -> Self
        ensures { result ≡ number }
    {
        OccurrenceNumber {
            low: (number % LOW_NUMBERS) as u32,
            high: (number / LOW_NUMBERS) as u32,
        }
    }

    /// The number, as `NameTable::resolve` takes it.
    pub fn number(self) -> usize
        ensures { result ≡ self }
    {
        self.high as usize * LOW_NUMBERS + self.low as usize
    }
}

/// What pieces and macros consist of. The text of an item with a span is that range of the source.
#[derive(Clone, Copy, Debug, PartialEq, Eq)]
pub enum Item {
    /// Word bytes up to the first other byte: letters, digits, `_`, `$` and bytes from 128 to 255.
    Word(Span),
    /// One byte that begins no other item; `@@` is the sign `@`.
    Sign(Span),
    /// A quoted text, or one of the ranges that it is cut into: after the first `@` of each `@@`,
    /// and at a line end inside the text.
    Quoted(Span),
    /// A line end inside a quoted text, after a backslash. The text is cut there.
    QuoteBreak,
    /// A verbatim text, or one of the ranges that it is cut into.
    Verbatim(Span),
    /// An ASCII constant, by its value: the number that is written for it in decimal.
    AsciiConstant(u8),
    /// White space between two items, of any length: one space is written for it.
    Blank,
    /// A line end outside quoted texts.
    LineEnd,
    /// A line mark: a C compiler counts lines from this origin on.
    LineMark(Origin),
    /// A use of a section name, by the number of its occurrence.
    UseOf(OccurrenceNumber),
    /// `@h`: all macros of the web are written here.
    AllMacros,
}
