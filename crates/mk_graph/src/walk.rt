//! A depth-first, left-to-right walk over rows of prerequisites. It keeps its path in a vector and
//! not on the machine stack.

ghost use Rattle.std.specs.Prelude.{◌≡◌, ℕ, ◌<◌, ◌++◌, [], ◌∷◌, length, reverse, map, IfOk, IfNone, slice_set};
ghost use Rattle.mk_graph.specs.Membership.{Has};
ghost use Rattle.mk_graph.specs.Walk.{Walks, closed_path};
ghost use Rattle.mk_graph.specs.Progress.{row, AreRows, AreMarks, ending, walk_end};

use std::alloc::{AllocError, Global};

/// The state of a node in the walk.
#[derive(Clone, Copy, Debug)]
pub enum Mark {
    /// The walk hasn't reached it.
    New,
    /// Its prerequisites are being walked.
    UnderWay,
    /// It is in the order, after its prerequisites.
    Finished,
}

/// A node that is under way, and how many of its prerequisites have been walked.
#[derive(Clone, Copy, Debug)]
pub struct Frame {
    pub node: usize,
    pub walked: usize,
}

/// The result of a walk from all goals.
#[derive(Debug, Drop)]
pub enum End {
    /// All nodes that the goals reach, each after its prerequisites.
    Order(Vec<usize>),
    /// The first closed path, with its first node repeated at the end.
    Cycle(Vec<usize>),
}

/// Walks from these goals over the rows, which hold the prerequisites of each node. The only error
/// is out of memory.
pub fn walk(alloc: Global, rows: &[Vec<usize>], goals: &[usize]) -> Result<End, AllocError>
    requires rows { AreRows rows.now }
    requires goals { (n : ℕ) → Has goals.now n → n < length rows.now }
    ensures { IfOk result (λ end. Walks (row rows.now) [] [] goals.now (walk_end end)) }
{
    let mut marks = vec![in alloc; Mark::New; rows.len()]?;
    let mut order = Vec::with_capacity(alloc, rows.len())?;
    for goal in goals {
        if let Some(path) = walk_from(alloc, rows, *goal, &mut marks, &mut order)? {
            return Ok(End::Cycle(path));
        }
    }
    Ok(End::Order(order))
}

/// Walks from one goal. Returns the closed path that it finds, or else appends the nodes that it
/// finishes to the order.
fn walk_from(
    alloc: Global,
    rows: &[Vec<usize>],
    goal: usize,
    marks: &mut [Mark],
    order: &mut Vec<usize>,
) -> Result<Option<Vec<usize>>, AllocError>
    requires rows { AreRows rows.now }
    requires goal { goal < length rows.now }
    requires sizes { length marks.old ≡ length rows.now }
    requires marks { AreMarks marks.old [] (reverse order.old.items) }
    ensures end { IfOk result (λ path. Walks (row rows.now) [] (reverse order.old.items) (goal ∷
        []) (ending path (reverse order.new.items))) }
    ensures marks { IfOk result (λ path. IfNone path (AreMarks marks.new []
        (reverse order.new.items))) }
{
    if let Mark::Finished = marks[goal] {
        return Ok(None);
    }
    let mut frames = Vec::new(alloc);
    enter(&mut frames, marks, goal)?;
    while let Some(frame) = frames.pop() {
        let needs = rows[frame.node].as_slice();
        if frame.walked < needs.len() {
            let node = needs[frame.walked];
            frames.push(Frame {
                node: frame.node,
                walked: frame.walked + 1,
            })?;
            match marks[node] {
                Mark::New => enter(&mut frames, marks, node)?,
                Mark::UnderWay => return Ok(Some(closed_path_from(alloc, frames, node)?)),
                Mark::Finished => {}
            }
        } else {
            marks[frame.node] = Mark::Finished;
            order.push(frame.node)?;
        }
    }
    Ok(None)
}

/// Marks a node as under way and pushes its frame.
fn enter(frames: &mut Vec<Frame>, marks: &mut [Mark], node: usize) -> Result<(), AllocError>
    requires { node < length marks.old }
    ensures frames { IfOk result (λ _. frames.new.items ≡
        frames.old.items ++ record { node = node; walked = 0 } ∷ []) }
    ensures marks { IfOk result (λ _. marks.new ≡ slice_set marks.old node Mark.UnderWay) }
{
    marks[node] = Mark::UnderWay;
    frames.push(Frame { node, walked: 0 })?;
    Ok(())
}

/// The path along the frames from a node that is under way, back to that node.
fn closed_path_from(
    alloc: Global,
    mut frames: Vec<Frame>,
    node: usize,
) -> Result<Vec<usize>, AllocError>
    ensures { IfOk result (λ path. path.items ≡
        closed_path node (map (λ frame. frame.node) (reverse frames.items))) }
{
    let mut path = vec![in alloc; node]?;
    while let Some(frame) = frames.pop() {
        path.push(frame.node)?;
        if frame.node == node {
            break;
        }
    }
    path.reverse();
    Ok(path)
}
