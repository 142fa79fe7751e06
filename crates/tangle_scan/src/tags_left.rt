//! The tags of a text one after another, where each run is unfolded to its parts.
ghost use Rattle.std.specs.Prelude.{◌≡◌, ◌∷◌, ◌≤◌, true, false, List};
ghost use Rattle.std.specs.Prelude.{length, take, drop, min, slice_get, MatchOption};
ghost use Rattle.tangle_scan.specs.UnfoldedTags.{part_tag, run_tags, unfolded_tags};
ghost use Rattle.tangle_scan.specs.declared.texts.ItemTag.{ItemTag as TagRead};

use crate::tags::same_tag;
use crate::texts::{ItemKind, ItemTag};
use std::marker::Model;
use tangle_text::{RunPart, RunParts, Span};

/// The tags and bytes of a text that remain.
#[derive(Drop)]
pub(crate) struct TagsLeft<'o> {
    tags: &'o [ItemTag],
    bytes: &'o [u8],
    /// The number of bytes that remain of a run that was begun; they are the first ones.
    run: u16,
}

impl<'o> Model for TagsLeft<'o> {
    ghost use Rattle.std.specs.Prelude.{List, length, ◌≤◌};
    ghost use Rattle.tangle_scan.specs.UnfoldedTags.{tags_left};
    ghost use Rattle.tangle_scan.specs.declared.texts.ItemTag.{ItemTag as TagRead};

    ghost Value = { List TagRead };

    ghost view = { λ t. tags_left t.tags.now t.bytes.now t.run };

    ghost invariant = { λ t. t.run ≤ length t.bytes.now };
}

/// The tag of a part of a run.
fn tag_of_part(part: RunPart) -> ItemTag
    ensures { result ≡ part_tag part }
{
    let (kind, size) = match part {
        RunPart::Word(span) => (ItemKind::Word, span.end.saturating_sub(span.start)),
        RunPart::Quoted(span) => (ItemKind::Quoted, span.end.saturating_sub(span.start)),
        RunPart::Sign(span) => (ItemKind::Sign, span.end.saturating_sub(span.start)),
        RunPart::Space => (ItemKind::Blank, 1),
    };
    ItemTag { kind, size }
}

/// The tag of the first part of a run that has this number of bytes, which are the first ones.
fn first_tag(bytes: &[u8], run: u16) -> Option<ItemTag>
    requires { run ≤ length bytes.now }
    ensures { MatchOption result (run ≡ 0) (λ tag. (tag.size ≤ run)
        × (run_tags (take run bytes.now) ≡ tag ∷ run_tags (drop tag.size (take run bytes.now)))) }
{
    let span = Span {
        line: 0,
        start: 0,
        end: run,
    };
    match RunParts::new(bytes, span).next() {
        Some(part) => Some(tag_of_part(part)),
        None => None,
    }
}

/// This size, or the number of the bytes if that is less.
fn size_within(size: u16, bytes: &[u8]) -> u16
    ensures { result ≡ min size (length bytes.now) }
{
    bytes.len().min(size as usize) as u16
}

impl<'o> TagsLeft<'o> {
    /// All tags of a text that has these tags and bytes.
    pub(crate) fn new(tags: &'o [ItemTag], bytes: &'o [u8]) -> Self
        ensures { result ≡ unfolded_tags tags.now bytes.now }
    {
        TagsLeft {
            tags,
            bytes,
            run: 0,
        }
    }

    /// The next tag.
    pub(crate) fn next(&mut self) -> Option<ItemTag>
        ensures tag { result ≡ slice_get self.old 0 }
        ensures rest { self.new ≡ drop 1 self.old }
    {
        while self.run == 0 {
            let (tag, tags) = self.tags.split_first()?;
            self.tags = tags;
            let size = size_within(tag.size, self.bytes);
            match tag.kind {
                ItemKind::Run => self.run = size,
                _ => {
                    self.bytes = &self.bytes[size as usize..];
                    return Some(*tag);
                }
            }
        }
        let tag = first_tag(self.bytes, self.run)?;
        self.run -= tag.size;
        self.bytes = &self.bytes[tag.size as usize..];
        Some(tag)
    }

    /// Passes the next tag, if there is one, and says whether it is this one.
    pub(crate) fn pass_tag(&mut self, tag: ItemTag) -> bool
        ensures tags { result ≡ true → self.old ≡ tag ∷ self.new }
        ensures other { result ≡ false → (more : List TagRead) → self.old ≡ tag ∷ more → ⊥ }
    {
        match self.next() {
            Some(next) => same_tag(next, tag),
            None => false,
        }
    }
}
