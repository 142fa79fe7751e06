//! The texts of pieces: what is written of them, as tags and bytes.
ghost use Rattle.std.specs.Prelude.{◌≡◌, ◌<◌, ◌^◌, ◌++◌, ◌∷◌, [], length, decimal, OnOk};
ghost use Rattle.tangle_scan.specs.Passes.{cut_to, size_of};
ghost use Rattle.tangle_scan.specs.Texts.{no_text, no_texts, text_at, text_of, with_tag, with_text};
ghost use Rattle.tangle_scan.specs.declared.texts.ItemKind.TheVariants as tag;

use crate::items::OccurrenceNumber;
use digraph::Rows;
use itoa::Buffer;
use std::alloc::Global;
use std::marker::Model;
use tangle_lines::{NoMemory, Origin};

/// What a tag stands for.
#[derive(Clone, Copy, Debug, PartialEq, Eq)]
pub enum ItemKind {
    /// A piece begins, with its opening and its opening mark.
    PieceStart,
    /// Words, signs, quoted texts and single spaces of one line.
    Run,
    Word,
    Sign,
    Quoted,
    QuoteBreak,
    Verbatim,
    AsciiConstant,
    Blank,
    LineEnd,
    /// A line mark.
    Mark,
    /// All macros.
    AllMacros,
    /// A use of a name: a space, and then the name's symbols.
    Use,
    /// A use that does not resolve to a name: a space.
    NoUse,
    /// A piece ends, with its closing.
    PieceEnd,
}

/// An item of a piece, a run of items, or a border of a piece, in four bytes: its kind, and the number
/// of its bytes.
#[derive(Clone, Copy, Debug, PartialEq, Eq)]
pub struct ItemTag {
    pub kind: ItemKind,
    pub size: u16,
}

/// The number of tags, bytes and marks of a text.
#[derive(Clone, Copy)]
pub(crate) struct TextSize {
    tags: usize,
    bytes: usize,
    marks: usize,
}

/// The text of a C part while it is made: the tags and bytes of its items, where a run has one tag,
/// the numbers of the occurrences in its uses, and the origins of its marks.
#[derive(Drop)]
pub(crate) struct PartText {
    tags: Vec<ItemTag>,
    bytes: Vec<u8>,
    uses: Vec<OccurrenceNumber>,
    marks: Vec<Origin>,
}

impl Model for PartText {
    ghost use Rattle.tangle_scan.specs.Texts.{TextRead};

    ghost Value = { TextRead };

    ghost view = { λ t. record {
      tags = t.tags.items;
      bytes = t.bytes.items;
      uses = t.uses.items;
      marks = t.marks.items;
    } };
}

impl PartText {
    /// An empty text.
    pub(crate) fn new(alloc: Global) -> Self
        ensures { result ≡ no_text }
    {
        PartText {
            tags: Vec::new(alloc),
            bytes: Vec::new(alloc),
            uses: Vec::new(alloc),
            marks: Vec::new(alloc),
        }
    }

    /// Removes all.
    pub(crate) fn clear(&mut self)
        ensures { self.new ≡ no_text }
    {
        self.tags.clear();
        self.bytes.clear();
        self.uses.clear();
        self.marks.clear();
    }

    #[inline(always)]
    pub(crate) fn size(&self) -> TextSize
        ensures { result ≡ size_of self.now }
    {
        TextSize {
            tags: self.tags.len(),
            bytes: self.bytes.len(),
            marks: self.marks.len(),
        }
    }

    /// Removes what was added after the text had this size, which was no use.
    pub(crate) fn cut(&mut self, size: TextSize)
        ensures { self.new ≡ cut_to size self.old }
    {
        self.tags.truncate(size.tags);
        self.bytes.truncate(size.bytes);
        self.marks.truncate(size.marks);
    }

    #[inline(always)]
    fn add_tag(&mut self, kind: ItemKind, size: u16) -> Result<(), NoMemory>
        ensures { OnOk result (self.new ≡ with_tag kind size self.old) }
    {
        let tag = ItemTag { kind, size };
        if self.tags.len() < self.tags.capacity() {
            self.tags.push_reserved(tag);
            return Ok(());
        }
        self.add_tag_with_allocation(tag)
    }

    /// Adds a tag where there is no capacity. This is a function of its own, which keeps the common
    /// case short.
    #[inline(never)]
    fn add_tag_with_allocation(&mut self, tag: ItemTag) -> Result<(), NoMemory>
        ensures { OnOk result (self.new ≡ with_tag tag.kind tag.size self.old) }
    {
        self.tags.push(tag)?;
        Ok(())
    }

    /// Adds an item or a run with these bytes.
    #[inline(always)]
    pub(crate) fn add_bytes(&mut self, kind: ItemKind, bytes: &[u8]) -> Result<(), NoMemory>
        requires { length bytes.now < 2 ^ 16 }
        ensures { OnOk result (self.new ≡ record (with_tag kind (length bytes.now) self.old) {
          bytes = self.old.bytes ++ bytes.now;
        }) }
    {
        self.add_tag(kind, bytes.len() as u16)?;
        self.bytes.extend_from_slice(bytes)?;
        Ok(())
    }

    /// Adds an item with this byte.
    #[inline(always)]
    pub(crate) fn add_byte(&mut self, kind: ItemKind, byte: u8) -> Result<(), NoMemory>
        ensures { OnOk result
            (self.new ≡ record (with_tag kind 1 self.old) { bytes = self.old.bytes ++ byte ∷ [] }) }
    {
        self.add_tag(kind, 1)?;
        self.bytes.push(byte)?;
        Ok(())
    }

    /// Adds an ASCII constant: its value in decimal.
    pub(crate) fn add_constant(&mut self, value: u8) -> Result<(), NoMemory>
        ensures { OnOk result
            (self.new ≡ record (with_tag tag.AsciiConstant (length (decimal value)) self.old) {
              bytes = self.old.bytes ++ decimal value;
            }) }
    {
        let mut digits = Buffer::new();
        self.add_bytes(ItemKind::AsciiConstant, digits.format(value).as_bytes())
    }

    /// Adds a line mark.
    #[inline(always)]
    pub(crate) fn add_mark(&mut self, origin: Origin) -> Result<(), NoMemory>
        ensures { OnOk result
            (self.new ≡ record (with_tag tag.Mark 0 self.old) { marks = self.old.marks ++ origin ∷ [] }) }
    {
        self.marks.push(origin)?;
        self.add_tag(ItemKind::Mark, 0)
    }

    /// Adds a use.
    #[inline(always)]
    pub(crate) fn add_use(&mut self, occurrence: OccurrenceNumber) -> Result<(), NoMemory>
        ensures { OnOk result
            (self.new ≡ record (with_tag tag.Use 0 self.old) { uses = self.old.uses ++ occurrence ∷ [] }) }
    {
        self.uses.push(occurrence)?;
        self.add_tag(ItemKind::Use, 0)
    }

    /// Adds `@h`.
    #[inline(always)]
    pub(crate) fn add_all_macros(&mut self) -> Result<(), NoMemory>
        ensures { OnOk result (self.new ≡ with_tag tag.AllMacros 0 self.old) }
    {
        self.add_tag(ItemKind::AllMacros, 0)
    }
}

/// The texts of pieces, each list in one for all pieces.
#[derive(Drop)]
pub(crate) struct PieceTexts {
    tags: Rows<ItemTag>,
    bytes: Rows<u8>,
    uses: Rows<OccurrenceNumber>,
    marks: Rows<Origin>,
}

/// The text of a piece: the tags and bytes of its items, where a run has one tag, the numbers of the
/// occurrences in its uses, and the origins of its marks.
#[derive(Clone, Copy)]
pub struct PieceText<'w> {
    pub tags: &'w [ItemTag],
    pub bytes: &'w [u8],
    pub uses: &'w [OccurrenceNumber],
    pub marks: &'w [Origin],
}

impl Model for PieceTexts {
    ghost use Rattle.tangle_scan.specs.Texts.{TextsRead};

    ghost Value = { TextsRead };

    ghost view = { λ t. record {
      tags = t.tags;
      bytes = t.bytes;
      uses = t.uses;
      marks = t.marks;
    } };
}

impl PieceTexts {
    /// No texts.
    pub(crate) fn new(alloc: Global) -> Self
        ensures { result ≡ no_texts }
    {
        PieceTexts {
            tags: Rows::new(alloc),
            bytes: Rows::new(alloc),
            uses: Rows::new(alloc),
            marks: Rows::new(alloc),
        }
    }

    /// Adds the text of one more piece.
    pub(crate) fn push(&mut self, text: &PartText) -> Result<(), NoMemory>
        ensures { OnOk result (self.new ≡ with_text self.old text.now) }
    {
        self.tags.push_row(&text.tags)?;
        self.bytes.push_row(&text.bytes)?;
        self.uses.push_row(&text.uses)?;
        self.marks.push_row(&text.marks)?;
        Ok(())
    }

    /// The text of the piece with this number.
    pub(crate) fn at(&self, number: usize) -> PieceText<'_>
        ensures { text_of result ≡ text_at self.now number }
    {
        PieceText {
            tags: self.tags.row(number),
            bytes: self.bytes.row(number),
            uses: self.uses.row(number),
            marks: self.marks.row(number),
        }
    }
}
