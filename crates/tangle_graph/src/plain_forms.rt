//! Plain forms of file names.
ghost use Rattle.std.specs.Prelude.{◌≡◌, [], ◌∷◌, ◌++◌, IfOk, OnOk, map, filter};
ghost use Rattle.std.specs.Prelude.{if◌then◌else◌};
ghost use Rattle.std.specs.List.{join_with_byte};
ghost use Rattle.tangle_graph.specs.PlainForms.{front_slash, is_plain_part, parts, plain_form, slash};

use std::alloc::{AllocError, Global};

/// Whether a plain form has this part: it is not empty, and more than a single full stop.
fn is_plain_part(part: &[u8]) -> bool
    ensures { result ≡ is_plain_part part.now }
{
    !part.is_empty() && part != b".".as_slice()
}

/// The parts of a file name that its plain form has.
fn plain_parts(alloc: Global, name: &[u8]) -> Result<Vec<&[u8]>, AllocError>
    ensures { IfOk result (λ found. map (λ part. part.now) found.items
        ≡ filter is_plain_part (parts name.now)) }
{
    name.split(|byte| *byte == b'/')
        .filter(|part| is_plain_part(part))
        .collect(alloc)
}

/// Adds a part at the end, after a slash if it is not the first.
fn add_part(is_first: bool, part: &[u8], form: &mut Vec<u8>) -> Result<(), AllocError>
    ensures { OnOk result (form.new.items ≡ form.old.items
        ++ ((if is_first then [] else slash ∷ []) ++ part.now)) }
{
    if !is_first {
        form.push(b'/')?;
    }
    form.extend_from_slice(part)?;
    Ok(())
}

/// Adds these parts at the end, with a slash between each two.
fn add_parts(parts: &[&[u8]], form: &mut Vec<u8>) -> Result<(), AllocError>
    ensures { OnOk result (form.new.items ≡ form.old.items
        ++ join_with_byte slash (map (λ part. part.now) parts.now)) }
{
    for i in 0..parts.len() {
        add_part(i == 0, parts[i], form)?;
    }
    Ok(())
}

/// Adds the slash at the front of a file name, if there is one.
fn add_front_slash(name: &[u8], form: &mut Vec<u8>) -> Result<(), AllocError>
    ensures { OnOk result (form.new.items ≡ form.old.items ++ front_slash name.now) }
{
    if name.starts_with(b"/") {
        form.push(b'/')?;
    }
    Ok(())
}

/// The plain form of a file name: what is left without the parts that are empty or a single full
/// stop. A slash at the front stays, and so does each part of two full stops.
#[tactic(auto, unfolding(crate::specs::PlainForms::plain_form))]
pub(crate) fn plain_form(alloc: Global, name: &[u8]) -> Result<Vec<u8>, AllocError>
    ensures { IfOk result (λ form. form.items ≡ plain_form name.now) }
{
    let parts = plain_parts(alloc, name)?;
    let mut form = Vec::with_capacity(alloc, name.len())?;
    add_front_slash(name, &mut form)?;
    add_parts(&parts, &mut form)?;
    Ok(form)
}
