//! Compares the tags of texts, whatever runs their items are in.
ghost use Rattle.std.specs.Prelude.{◌≡◌, ◌↔◌, true};
ghost use Rattle.tangle_scan.specs.UnfoldedTags.{unfolded_tags};

use crate::tags_left::TagsLeft;
use crate::texts::ItemTag;

pub(crate) fn same_tag(tag: ItemTag, other: ItemTag) -> bool
    ensures { (result ≡ true) ↔ (tag ≡ other) }
{
    tag == other
}

fn equal_tags(tags: &[ItemTag], others: &[ItemTag]) -> bool
    ensures { (result ≡ true) ↔ (tags.now ≡ others.now) }
{
    if tags.len() != others.len() {
        return false;
    }
    for i in 0..tags.len() {
        if !same_tag(tags[i], others[i]) {
            return false;
        }
    }
    true
}

/// Whether the tags that remain are the same on both sides.
fn same_tags_left(mut left: TagsLeft, mut other: TagsLeft) -> bool
    ensures { (result ≡ true) ↔ (left.entry ≡ other.entry) }
{
    while let Some(tag) = left.next() {
        if !other.pass_tag(tag) {
            return false;
        }
    }
    other.next().is_none()
}

/// Whether these tags and the others, each with these bytes, are those of the same items.
pub fn have_same_items(tags: &[ItemTag], others: &[ItemTag], bytes: &[u8]) -> bool
    ensures { (result ≡ true)
        ↔ (unfolded_tags tags.now bytes.now ≡ unfolded_tags others.now bytes.now) }
{
    // Where the same items are in other runs, the tags differ, and the items are compared one by one.
    if equal_tags(tags, others) {
        return true;
    }
    same_tags_left(TagsLeft::new(tags, bytes), TagsLeft::new(others, bytes))
}
