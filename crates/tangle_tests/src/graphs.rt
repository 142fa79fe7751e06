//! Nodes that a store does not have, and expansions that are written on their own.
ghost use Rattle.std.specs.Prelude.{◌≡◌, IfOk, IfSome};
ghost use Rattle.tangle_graph.specs.Stores.{IsNodeIn};

use crate::support::files_with;
use std::alloc::{AllocError, Global};
use std::test::Fail;
use tangle_graph::{Expansion, Kept, Node, Numbers, Store, Work, expand_all, same_shape};
use tangle_lines::{Files, MarkMode, NoMemory, Refusal, Roles, Source, WriteFault, read_source};
use tangle_memory_folder::MemorySink;
use tangle_names::NameTable;
use tangle_scan::scan;

// The source of the web `a.w`.
fn read<'a>(alloc: Global, files: &'a Files) -> Result<Source<'a>, Refusal> {
    let roles = Roles::new(alloc, b"a.w", None, b"a.c")?;
    if !roles.fits(files) {
        return Err(Refusal::NoWeb);
    }
    Ok(read_source(alloc, files, &roles)?)
}

fn tangle_source(alloc: Global, source: &Source) -> Result<(Store, Kept, Numbers), NoMemory>
    ensures { IfOk result (λ made. made.2.names ≡ made.0.names) }
{
    let web = scan(alloc, source)?;
    let table = NameTable::build(alloc, &web)?;
    let store = Store::build(alloc, &web, &table, b"a.c", None)?.store;
    let numbers = store.numbers(alloc, &web, MarkMode::Full)?;
    let mut work = Work::new(alloc);
    let kept = expand_all(alloc, &store, &mut work)?;
    Ok((store, kept, numbers))
}

// The graph of the web with this text, the expansions of its nodes, and the numbers in their texts.
fn tangle(alloc: Global, web: &[u8]) -> Result<(Store, Kept, Numbers), Fail>
    ensures { IfOk result (λ made. made.2.names ≡ made.0.names) }
{
    let files = files_with(alloc, &[(b"a.w", web)])?;
    let source = read(alloc, &files)?;
    Ok(tangle_source(alloc, &source)?)
}

#[test]
fn a_node_that_the_store_does_not_have(rt: HostRuntime) -> Result<(), Fail> {
    let (store, kept, _) = tangle(rt.alloc(), b"@ A.\n@c\nint x=@<v@>;\n@ @<v@>=\n1\n")?;
    let beyond = Node::name(1);
    assert_eq!(rt; (store.weight(beyond), store.depth(beyond)), (0, 0));
    assert!(rt; !store.has_piece(beyond) && !store.expandable(beyond));
    assert!(rt; !store.self_containing(beyond) && kept.get(beyond).is_none());
    assert!(rt; store.uses(beyond).is_empty() && store.users(beyond).is_empty());
    assert!(rt; same_shape(&store, beyond, &store, Node::name(2)));
    Ok(())
}

fn add(web: &mut Vec<u8>, parts: &[&[u8]]) -> Result<(), AllocError> {
    for part in parts {
        web.extend_from_slice(part)?;
    }
    Ok(())
}

// The program uses the first of 999 names, and each of them but the last uses the next one, which
// has a byte more.
fn chain(alloc: Global) -> Result<Vec<u8>, AllocError> {
    let mut web = b"@ P.\n@c\n@<x@>\n".to_vec(alloc)?;
    let mut name = b"x".to_vec(alloc)?;
    for _ in 0..998 {
        add(&mut web, &[b"@ @<", &name, b"@>=\n@<x", &name, b"@>\n"])?;
        name.push(b'x')?;
    }
    add(&mut web, &[b"@ @<", &name, b"@>=\n1\n"])?;
    Ok(web)
}

// A share of the expansion of a node; those of the others are dropped.
fn expansion_of(alloc: Global, web: &[u8], node: Node) -> Result<Expansion, Fail> {
    let (_, kept, _) = tangle(alloc, web)?;
    Ok(kept.get(node).ok_or("the expansion")?.share()?)
}

// Nodes of the chain by their numbers, each with the number of bytes in its text. The first is the
// program, which is as deep as an expanded node can be; the last is the name without a use. Node
// `n` is section `n + 1`, its head ends on line `2n + 2`, and its use is on the line after it. So
// its own text has 45 bytes, or 30 without a use, and one more for each further digit of a number:
// two of the section, and one of each line.
const DEEP: [(usize, usize); 3] = [(0, 53_664), (1, 53_619), (999, 39)];

fn node_at(store: &Store, number: usize) -> Option<Node>
    ensures { IfSome result (IsNodeIn store.now) }
{
    if number > store.names().count() {
        return None;
    }
    Some(Node::new(number))
}

#[test]
fn texts_of_a_long_chain(rt: HostRuntime) -> Result<(), Fail> {
    let web = chain(rt.alloc())?;
    let (store, _, numbers) = tangle(rt.alloc(), &web)?;
    for (number, size) in DEEP {
        let node = node_at(&store, number).ok_or("the node")?;
        let expansion = expansion_of(rt.alloc(), &web, node)?;
        for capacity in [size, size - 1, size / 2, 0] {
            let mut sink = MemorySink::new(rt.alloc(), capacity);
            let written = expansion.write_text_after(node, &numbers, &mut sink, Ok(0));
            let expected = if capacity == size {
                Ok(size as u128)
            } else {
                Err(WriteFault(capacity as u128))
            };
            assert_eq!(rt; (written, sink.bytes().len()), (expected, capacity));
        }
    }
    Ok(())
}
