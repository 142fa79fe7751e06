//! Makes the body of a node, piece by piece.
ghost use Rattle.std.specs.Prelude.{◌≡◌, ◌↔◌, ◌≤◌, ◌<◌, ◌++◌, ◌∷◌, [], drop, length, take, true};
ghost use Rattle.std.specs.Prelude.{IfOk, List, OnOk, is_some};
ghost use Rattle.std.specs.List.{All, list_all};
ghost use Rattle.tangle_scan.specs.Texts.{text_of};
ghost use Rattle.tangle_scan.specs.declared.texts.ItemTag.{ItemTag as TagRead};
ghost use Rattle.tangle_bodies.specs.ItemTags.{nodes_of, resolved_tags};
ghost use Rattle.tangle_bodies.specs.NodeBodies.{AreItemsOf, HaveOneShape, body_items};
ghost use Rattle.tangle_bodies.specs.NodeBodies.{body_uses, items_read, nothing_made};
ghost use Rattle.tangle_bodies.specs.NodeBodies.{with_piece};
ghost use Rattle.tangle_bodies.specs.Nodes.{IsNodeOf, node_of_occurrence, pieces_at, titles_at};

use crate::nodes::{NodeBody, NodeItems, node_of_occurrence};
use crate::shapes::{have_titles_of, same_items};
use digraph::Node;
use std::alloc::Global;
use std::marker::Model;
use std::rc::Rc;
use tangle_lines::NoMemory;
use tangle_names::{NameTable, Names};
use tangle_scan::{ItemKind, ItemTag, OccurrenceNumber, PieceText, Web};

/// Buffers in which the items of one node after another are made. They are kept for the next node,
/// so that a body takes only the memory that it needs, and its items none if an old one has them.
#[derive(Drop)]
pub struct BodyBuilder {
    items: NodeItems,
    uses: Vec<Node>,
}

impl Model for BodyBuilder {
    ghost use Rattle.tangle_bodies.specs.NodeBodies.{ItemsRead, items_read};

    ghost Value = { ItemsRead };

    ghost view = { λ b. items_read b.items b.uses.items };
}

impl BodyBuilder {
    /// Empty buffers for a first node.
    pub fn new(alloc: Global) -> Self
        ensures { result ≡ nothing_made }
    {
        BodyBuilder {
            items: NodeItems {
                bytes: Vec::new(alloc),
                tags: Vec::new(alloc),
            },
            uses: Vec::new(alloc),
        }
    }

    /// Makes the items of the pieces with these numbers, in place of what was made before.
    ///
    /// # Errors
    ///
    /// `NoMemory` where an allocation failed.
    pub fn make(&mut self, web: &Web, table: &NameTable, numbers: &[usize]) -> Result<(), NoMemory>
        requires numbers { All (λ n. n < length web.now.pieces) numbers.now }
        requires ours { length table.now.resolved ≡ length web.now.occurrences }
        ensures { OnOk result (AreItemsOf web.now.texts table.now
            (pieces_at web.now.pieces numbers.now) self.new) }
    {
        self.items.bytes.clear();
        self.items.tags.clear();
        self.uses.clear();
        for number in numbers {
            self.add_piece(table, web.piece_text(*number))?;
        }
        Ok(())
    }

    /// Whether the items that were made, with these names, have the same shape as a body with its
    /// names. `same_uses` says that both use the same names; otherwise they are compared.
    pub fn has_shape_of(
        &self,
        names: &Names,
        body: &NodeBody,
        other_names: &Names,
        same_uses: bool,
    ) -> bool
        requires inside { All (IsNodeOf names.now) self.now.uses }
        requires other_inside { All (IsNodeOf other_names.now) (body_uses body.now) }
        requires same_uses { same_uses ≡ true
            → titles_at names.now self.now.uses ≡ titles_at other_names.now (body_uses body.now) }
        ensures { (result ≡ true)
            ↔ HaveOneShape names.now other_names.now self.now (body_items body.now) }
    {
        same_items(&self.items, &body.items)
            && (same_uses || have_titles_of(names, &self.uses, other_names, &body.uses))
    }

    /// Whether the uses that were made have the same numbers as those of a body.
    pub fn has_uses_of(&self, body: &NodeBody) -> bool
        ensures { (result ≡ true) ↔ (self.now.uses ≡ body_uses body.now) }
    {
        self.uses == body.uses
    }

    /// The body with the items that were made.
    ///
    /// # Errors
    ///
    /// `NoMemory` where an allocation failed.
    pub fn body(&self, alloc: Global) -> Result<NodeBody, NoMemory>
        ensures { IfOk result (λ body. body_items body ≡ self.now) }
    {
        let items = NodeItems {
            bytes: Vec::from_slice(alloc, &self.items.bytes)?,
            tags: Vec::from_slice(alloc, &self.items.tags)?,
        };
        self.body_of(alloc, Rc::new(alloc, items)?)
    }

    /// The body with these items and the uses that were made.
    ///
    /// # Errors
    ///
    /// `NoMemory` where an allocation failed.
    pub fn body_of(&self, alloc: Global, items: Rc<NodeItems>) -> Result<NodeBody, NoMemory>
        ensures { IfOk result (λ body. body_items body ≡ items_read items.value self.now.uses) }
    {
        let uses = Vec::from_slice(alloc, &self.uses)?;
        Ok(NodeBody { items, uses })
    }

    /// Adds the tag of a border of a piece.
    fn add_border(&mut self, kind: ItemKind) -> Result<(), NoMemory>
        ensures { OnOk result (self.new ≡ record self.old {
          tags = self.old.tags ++ record { kind = kind; size = 0 } ∷ [];
        }) }
    {
        self.items.tags.push(ItemTag { kind, size: 0 })?;
        Ok(())
    }

    /// Adds the nodes of the names to which these occurrences resolve. Returns whether each resolves
    /// to one.
    fn add_uses(&mut self, table: &NameTable, uses: &[OccurrenceNumber]) -> Result<bool, NoMemory>
        requires { All (λ n. n < length table.now.resolved) uses.now }
        ensures uses { OnOk result (self.new ≡ record self.old {
          uses = self.old.uses ++ nodes_of table.now uses.now;
        }) }
        ensures all { IfOk result (λ all. all
            ≡ list_all (λ n. is_some (node_of_occurrence table.now n)) uses.now) }
    {
        let mut all = true;
        for used in uses {
            match node_of_occurrence(table, used.number()) {
                Some(node) => self.uses.push(node)?,
                None => all = false,
            }
        }
        Ok(all)
    }

    /// Adds a piece.
    fn add_piece(&mut self, table: &NameTable, text: PieceText) -> Result<(), NoMemory>
        requires { All (λ n. n < length table.now.resolved) (text_of text).uses }
        ensures { OnOk result (self.new ≡ with_piece table.now self.old (text_of text.entry)) }
    {
        let all_resolve = self.add_uses(table, text.uses)?;
        self.add_border(ItemKind::PieceStart)?;
        let first = self.items.tags.len();
        self.items.tags.extend_from_slice(text.tags)?;
        mark_unresolved(&mut self.items.tags, first, table, text.uses, all_resolve);
        self.items.bytes.extend_from_slice(text.bytes)?;
        self.add_border(ItemKind::PieceEnd)
    }
}

/// A tag, with the kind that the first of these occurrences gives it if it is a use, and the
/// occurrences in the uses after it.
fn resolved_tag<'u>(
    table: &NameTable,
    tag: ItemTag,
    uses: &'u [OccurrenceNumber],
) -> (ItemTag, &'u [OccurrenceNumber])
    requires { All (λ n. n < length table.now.resolved) uses.now }
    ensures tag { (tags : List TagRead) → resolved_tags table.now (tag ∷ tags) uses.now
        ≡ result.0 ∷ resolved_tags table.now tags result.1.now }
    ensures left { All (λ n. n < length table.now.resolved) result.1.now }
{
    match (tag.kind, uses) {
        (ItemKind::Use, [used, rest @ ..]) => {
            let kind = match node_of_occurrence(table, used.number()) {
                Some(_) => ItemKind::Use,
                None => ItemKind::NoUse,
            };
            (ItemTag { kind, ..tag }, rest)
        }
        _ => (tag, uses),
    }
}

/// Marks the uses among the tags from this one on whose occurrences resolve to no name.
/// `all_resolve` says whether each resolves to one.
fn mark_unresolved(
    tags: &mut Vec<ItemTag>,
    first: usize,
    table: &NameTable,
    uses: &[OccurrenceNumber],
    all_resolve: bool,
)
    requires first { first ≤ length tags.old.items }
    requires uses { All (λ n. n < length table.now.resolved) uses.now }
    requires all { all_resolve
        ≡ list_all (λ n. is_some (node_of_occurrence table.now n)) uses.now }
    ensures { tags.new.items ≡ take first tags.old.items
        ++ resolved_tags table.now (drop first tags.old.items) uses.now }
{
    if all_resolve {
        return;
    }
    let mut left = uses;
    for i in first..tags.len() {
        let (tag, rest) = resolved_tag(table, tags[i], left);
        tags[i] = tag;
        left = rest;
    }
}
