//! Occurrences of section names.
ghost use Rattle.std.specs.Prelude.{◌≡◌};

use std::marker::Model;
use tangle_files::SharedSlice;
use tangle_lines::Origin;

/// What an occurrence of a section name is for.
#[derive(Clone, Copy, Debug, PartialEq, Eq)]
pub enum OccurrenceRole {
    /// It begins a C part of its name.
    Definition,
    /// It is in C text, where the C of its name is written.
    Use,
    /// It is in documentation, and begins no C part.
    Mention,
}

/// A section name as it is written at one position of the web.
#[derive(Drop)]
pub struct Occurrence {
    pub(crate) text: SharedSlice,
    pub(crate) is_abbreviation: bool,
    pub(crate) is_file: bool,
    pub(crate) role: OccurrenceRole,
    pub(crate) origin: Origin,
}

impl Model for Occurrence {
    ghost use Rattle.tangle_lexer.specs.Occurrences.{OccurrenceRead};

    ghost Value = { OccurrenceRead };

    ghost view = { λ o. record {
      text = o.text;
      is_abbreviation = o.is_abbreviation;
      is_file = o.is_file;
      role = o.role;
      origin = o.origin;
    } };
}

impl Occurrence {
    /// The bytes of the name in normal form: without white space at its ends, with one space for
    /// each run of white space inside, and with one `@` for each `@@`. The three dots of an
    /// abbreviation are a part of it.
    pub fn text(&self) -> &[u8]
        ensures { result.now ≡ self.now.text }
    {
        self.text.bytes()
    }

    /// Whether the name is an abbreviation: it ends in three dots.
    pub fn is_abbreviation(&self) -> bool
        ensures { result ≡ self.now.is_abbreviation }
    {
        self.is_abbreviation
    }

    /// Whether the name is a file name: `@(` opens it.
    pub fn is_file(&self) -> bool
        ensures { result ≡ self.now.is_file }
    {
        self.is_file
    }

    /// Whether the occurrence is a definition, a use or a mention.
    pub fn role(&self) -> OccurrenceRole
        ensures { result ≡ self.now.role }
    {
        self.role
    }

    /// The origin of the line on which the occurrence begins.
    pub fn origin(&self) -> Origin
        ensures { result ≡ self.now.origin }
    {
        self.origin
    }
}
