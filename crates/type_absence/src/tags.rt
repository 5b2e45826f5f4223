//! Lists of tags, in which each stands once.

ghost use Rattle.std.specs.Prelude.{◌≡◌, ◌++◌, IsTrue, IfOk, OnOk};
ghost use Rattle.type_absence.specs.Tags.{is_listed, with_tag, with_tags};

use kan_terms::{Memory, Tags};
use std::alloc::Global;

/// Whether a tag is in the list.
pub fn lists(tags: &[u32], tag: u32) -> bool
    ensures { result ≡ is_listed tag tags.now }
{
    for other in tags {
        if *other == tag {
            return true;
        }
    }
    false
}

/// Whether all of some tags are in the list, so that it stays as it is with them.
pub fn lists_all(tags: &[u32], more: &[u32]) -> bool
    ensures { IsTrue result → with_tags more.now tags.now ≡ tags.now }
{
    for tag in more {
        if !lists(tags, *tag) {
            return false;
        }
    }
    true
}

/// A list once more.
pub fn copied(alloc: Global, tags: &[u32]) -> Result<Tags, Memory>
    ensures { IfOk result (λ made. made ≡ tags.now) }
{
    let mut made = Tags::new(alloc);
    for tag in tags {
        if made.push(*tag).is_err() {
            return Err(Memory);
        }
    }
    Ok(made)
}

// Puts a tag at the end of a list, unless it is there.
fn put(tag: u32, tags: &mut Tags) -> Result<(), Memory>
    ensures { OnOk result (tags.new ≡ with_tag tag tags.old) }
{
    if lists(tags.items(), tag) {
        return Ok(());
    }
    match tags.push(tag) {
        Ok(()) => Ok(()),
        Err(_) => Err(Memory),
    }
}

/// Puts tags at the end of a list, one after the other, each unless it is there.
pub fn put_all(more: &[u32], tags: &mut Tags) -> Result<(), Memory>
    ensures { OnOk result (tags.new ≡ with_tags more.now tags.old) }
{
    for tag in more {
        put(*tag, tags)?;
    }
    Ok(())
}
