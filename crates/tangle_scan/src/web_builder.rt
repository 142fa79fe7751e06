//! Gathers the pieces, macros and faults of a web from the tokens of its C parts and macros.
ghost use Rattle.std.specs.Prelude.{◌≡◌, ◌≤◌, ◌<◌, ◌+◌, ◌^◌, ◌++◌, ◌∷◌, ℕ, [], List};
ghost use Rattle.std.specs.Prelude.{if◌then◌else◌, true, false, None, IfOk, OnOk};
ghost use Rattle.std.specs.List.{All, list_any};
ghost use Rattle.tangle_faults.specs.declared.faults.FaultKind.TheVariants as fault;
ghost use Rattle.tangle_scan.specs.Rules as rules;
ghost use Rattle.tangle_scan.specs.Web as web;
ghost use Rattle.tangle_lexer.specs.Heads.{is_head};
ghost use Rattle.tangle_lexer.specs.Runs.{unfolded, first_is_alone, IsRunIn};
ghost use Rattle.tangle_scan.specs.Passes.{spaced_items};
ghost use Rattle.tangle_lexer.specs.declared.tokens.Token.{Token as TokenRead};
ghost use Rattle.tangle_lexer.specs.declared.tokens.Token.TheVariants as token;
ghost use Rattle.tangle_scan.specs.MacroBytes.{macro_bytes};
ghost use Rattle.tangle_scan.specs.Rules.{texts_of};
ghost use Rattle.tangle_scan.specs.WebBuilder.{IsGathered, nothing_stored, part_head};
ghost use Rattle.tangle_scan.specs.WebBuilder.{with_macro, with_section};

use crate::faults::{add_fault, add_faults, add_macro_faults};
use crate::items::OccurrenceNumber;
use crate::macro_bytes::push_macro;
use crate::macro_items::tokens_of_macro;
use crate::parts::fill_part;
use crate::pieces::Piece;
use crate::runs::first_token;
use crate::texts::{PartText, PieceTexts};
use crate::touching::first_byte;
use std::alloc::Global;
use std::marker::Model;
use tangle_lexer::{SpanKind, Token};
use tangle_lines::{Fault, FaultKind, NoMemory, Source};

/// Whether the spaced tokens of a macro begin with an identifier, as they have to.
pub fn begins_with_name(source: &Source, tokens: &[Token]) -> bool
    requires { All (IsRunIn (texts_of source.now.lines)) tokens.now }
    ensures { result ≡ rules.is_macro (texts_of source.now.lines)
        (spaced_items (texts_of source.now.lines) tokens.now) }
{
    for token in tokens {
        match first_token(source, *token) {
            Token::Span(SpanKind::Word, span) => {
                return !first_byte(source, span).is_ascii_digit();
            }
            Token::Span(..)
            | Token::QuoteBreak(_)
            | Token::AsciiConstant(..)
            | Token::White
            | Token::LineEnd(_) => return false,
            // No other token is an item.
            _ => {}
        }
    }
    false
}

/// What was gathered of a web so far, block by block.
#[derive(Drop)]
pub(crate) struct WebBuilder {
    pub(crate) sections: usize,
    pub(crate) pieces: Vec<Piece>,
    pub(crate) texts: PieceTexts,
    /// The text of a C part while it is made. It is kept for the next part.
    part: PartText,
    /// The bytes of all macros.
    pub(crate) macros: Vec<u8>,
    pub(crate) has_all_macros: bool,
    pub(crate) faults: Vec<Fault>,
}

impl Model for WebBuilder {
    ghost use Rattle.tangle_scan.specs.WebBuilder.{StoredBuilder};

    ghost Value = { StoredBuilder };

    ghost view = { λ g. record {
      sections = g.sections;
      pieces = g.pieces.items;
      texts = g.texts;
      macros = g.macros.items;
      has_all_macros = g.has_all_macros;
      faults = g.faults.items;
    } };
}

impl WebBuilder {
    /// An empty builder.
    pub(crate) fn new(alloc: Global) -> Self
        ensures { result ≡ nothing_stored }
    {
        WebBuilder {
            sections: 0,
            pieces: Vec::new(alloc),
            texts: PieceTexts::new(alloc),
            part: PartText::new(alloc),
            macros: Vec::new(alloc),
            has_all_macros: false,
            faults: Vec::new(alloc),
        }
    }

    /// Adds the faults among the tokens before the first head.
    pub(crate) fn add_front(
        &mut self,
        alloc: Global,
        source: &Source,
        tokens: &[Token],
    ) -> Result<(), NoMemory>
        requires no_head { list_any is_head tokens.now ≡ false }
        requires runs { All (IsRunIn (texts_of source.now.lines)) tokens.now }
        ensures builder { OnOk result (IsGathered source.now [] self.old → IsGathered source.now
            (unfolded (texts_of source.now.lines) tokens.now) self.new) }
        ensures sections { OnOk result (self.new.sections ≡ self.old.sections) }
    {
        add_faults(alloc, source, &mut self.faults, tokens)?;
        Ok(())
    }

    /// Adds a section, and the faults among the tokens before its first macro or C part.
    fn add_section(
        &mut self,
        alloc: Global,
        source: &Source,
        tokens: &[Token],
    ) -> Result<(), NoMemory>
        requires limit { self.old.sections + 1 < 2 ^ 64 }
        requires runs { All (IsRunIn (texts_of source.now.lines)) tokens.now }
        ensures { OnOk result (self.new ≡ with_section source.now tokens.now self.old) }
    {
        self.sections += 1;
        add_faults(alloc, source, &mut self.faults, tokens)?;
        Ok(())
    }

    /// Adds the piece of a C part whose head ends on this line, and the faults among its tokens.
    fn add_piece(
        &mut self,
        alloc: Global,
        source: &Source,
        occurrence: Option<OccurrenceNumber>,
        line: u32,
        tokens: &[Token],
    ) -> Result<(), NoMemory>
        requires no_head { list_any is_head tokens.now ≡ false }
        requires runs { All (IsRunIn (texts_of source.now.lines)) tokens.now }
        ensures piece { OnOk result ((before : List TokenRead) → IsGathered source.now before self.old
            → IsGathered source.now (before ++ part_head line occurrence
            ∷ unfolded (texts_of source.now.lines) tokens.now) self.new) }
        ensures sections { OnOk result (self.new.sections ≡ self.old.sections) }
    {
        let has_all_macros = fill_part(
            alloc,
            source,
            &mut self.faults,
            &mut self.part,
            line,
            tokens,
        )?;
        self.texts.push(&self.part)?;
        self.pieces.push(Piece {
            section: self.sections,
            origin: source.origin(line as usize),
            occurrence,
        })?;
        self.has_all_macros = self.has_all_macros | has_all_macros;
        Ok(())
    }

    /// Adds a macro, or a fault on the line of its `@d` if the macro does not begin with an
    /// identifier, and then the faults among its tokens.
    fn add_macro(
        &mut self,
        alloc: Global,
        source: &Source,
        line: u32,
        tokens: &[Token],
    ) -> Result<(), NoMemory>
        requires runs { All (IsRunIn (texts_of source.now.lines)) tokens.now }
        requires alone { first_is_alone tokens.now ≡ true }
        ensures { OnOk result (let texts = texts_of source.now.lines in
            self.new ≡ with_macro source.now line tokens.now
            (rules.macro_items texts (unfolded texts tokens.now)) self.old) }
    {
        let spaced = tokens_of_macro(alloc, source, tokens)?;
        if begins_with_name(source, &spaced) {
            push_macro(&mut self.macros, source, &spaced)?;
        } else {
            add_fault(alloc, source, &mut self.faults, FaultKind::MacroName, line)?;
        }
        add_macro_faults(alloc, source, &mut self.faults, tokens)
    }

    /// Adds a block: a head and the tokens up to the next head.
    pub(crate) fn add_block(
        &mut self,
        alloc: Global,
        source: &Source,
        head: Token,
        tokens: &[Token],
    ) -> Result<(), NoMemory>
        requires limit { self.old.sections + 1 < 2 ^ 64 }
        requires head { is_head head ≡ true }
        requires no_head { list_any is_head tokens.now ≡ false }
        requires runs { All (IsRunIn (texts_of source.now.lines)) tokens.now }
        requires alone { (line : ℕ) → head ≡ token.MacroStart line
            → first_is_alone tokens.now ≡ true }
        ensures builder { OnOk result ((before : List TokenRead) → IsGathered source.now before self.old
            → IsGathered source.now
            (before ++ head ∷ unfolded (texts_of source.now.lines) tokens.now) self.new) }
        ensures sections { OnOk result (self.new.sections ≤ self.old.sections + 1) }
    {
        match head {
            Token::Section => self.add_section(alloc, source, tokens),
            Token::MacroStart(line) => self.add_macro(alloc, source, line, tokens),
            Token::UnnamedPart(line) => self.add_piece(alloc, source, None, line, tokens),
            Token::NamedPart(line, occurrence) => {
                let occurrence = OccurrenceNumber::new(occurrence);
                self.add_piece(alloc, source, Some(occurrence), line, tokens)
            }
            _ => Ok(()),
        }
    }
}
