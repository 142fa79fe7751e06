//! Searches that propose orders and strongly connected components. No result depends on them, only
//! the running time.

use crate::nodes::Node;
use crate::rows::Rows;
use std::alloc::{AllocError, Global};

/// Visits the node. Returns whether this is its first visit.
fn visit(visited: &mut [bool], n: usize) -> bool {
    match visited.get_mut(n) {
        Some(flag) => {
            let first = !*flag;
            *flag = true;
            first
        }
        None => false,
    }
}

/// The nodes that reach no cycle, each after those that it uses (Kahn).
pub fn topological_order(
    alloc: Global,
    uses: &Rows<Node>,
    users: &Rows<Node>,
) -> Result<Vec<usize>, AllocError> {
    let mut left = Vec::new(alloc);
    let mut queue = Vec::new(alloc);
    for n in 0..uses.len() {
        let size = uses.row(n).len();
        left.push(size)?;
        if size == 0 {
            queue.push(n)?;
        }
    }
    for head in 0..uses.len() {
        let Some(n) = queue.get(head) else {
            break;
        };
        for user in users.row(*n) {
            if let Some(count) = left.get_mut(user.number()) {
                *count = count.saturating_sub(1);
                if *count == 0 {
                    queue.push(user.number())?;
                }
            }
        }
    }
    Ok(queue)
}

/// The nodes in the postorder of a depth-first search.
pub fn postorder(alloc: Global, uses: &Rows<Node>) -> Result<Vec<usize>, AllocError> {
    let mut visited = vec![in alloc; false; uses.len()]?;
    let mut order = Vec::new(alloc);
    let mut stack: Vec<(usize, usize)> = Vec::new(alloc);
    for start in 0..uses.len() {
        if visit(&mut visited, start) {
            stack.push((start, 0))?;
        }
        for _ in 0..usize::MAX {
            let Some((n, next)) = stack.pop() else {
                break;
            };
            let row = uses.row(n);
            if next < row.len() {
                stack.push((n, next + 1))?;
                let m = row[next].number();
                if visit(&mut visited, m) {
                    stack.push((m, 0))?;
                }
            } else {
                order.push(n)?;
            }
        }
    }
    Ok(order)
}

/// The strongly connected components, by Kosaraju's second search: a rank and a root for each node.
/// The root of a component is the node of the component that this search visits first.
///
/// Returns the nodes in the order of these visits. Each node that is no root comes after one of its
/// component that it uses.
pub fn rank_components(
    alloc: Global,
    users: &Rows<Node>,
    postorder: &[usize],
    ranks: &mut [usize],
    roots: &mut [usize],
) -> Result<Vec<usize>, AllocError> {
    let mut visited = vec![in alloc; false; postorder.len()]?;
    let mut visits = Vec::new(alloc);
    for start in postorder.iter().rev() {
        let rank = visits.len();
        if visit(&mut visited, *start) {
            visits.push(*start)?;
        }
        for head in rank..usize::MAX {
            let Some(n) = visits.get(head) else {
                break;
            };
            if let Some(entry) = ranks.get_mut(*n) {
                *entry = rank;
            }
            if let Some(entry) = roots.get_mut(*n) {
                *entry = *start;
            }
            for user in users.row(*n) {
                if visit(&mut visited, user.number()) {
                    visits.push(user.number())?;
                }
            }
        }
    }
    Ok(visits)
}

/// The nodes that reach the target. Each but the target comes after one that it uses.
pub fn backward(
    alloc: Global,
    users: &Rows<Node>,
    target: usize,
) -> Result<Vec<usize>, AllocError> {
    let mut visited = vec![in alloc; false; users.len()]?;
    let mut visits = Vec::new(alloc);
    if visit(&mut visited, target) {
        visits.push(target)?;
    }
    for head in 0..usize::MAX {
        let Some(n) = visits.get(head) else {
            break;
        };
        for user in users.row(*n) {
            if visit(&mut visited, user.number()) {
                visits.push(user.number())?;
            }
        }
    }
    Ok(visits)
}
