//! Nodes of a tree put over each other so that as many gaps lie on either side.
ghost use Rattle.std.specs.Prelude.{◌≡◌, ◌<◌, ◌^◌, ◌∷◌, ◌++◌, length};
ghost use Rattle.track_ledger.specs.Inner.Trees.{gaps_around, items_of};

use crate::piece::Piece;
use crate::tree::{Node, Parts, Tree, fork, taken};

// Whether one side is more than three times as heavy as the other.
fn is_heavy(side: usize, other: usize) -> bool
    requires side { side < 2 ^ 32 }
    requires other { other < 2 ^ 32 }
{
    side + 1 > 3 * (other + 1)
}

/// A node with a gap between two sides, of which neither stays heavy.
pub fn settled(cell: Box<Node>, left: Tree, gap: Piece, right: Tree) -> Tree
    requires { length (gaps_around left gap right) < 2 ^ 32 }
    ensures { items_of result ≡ gaps_around left gap right }
{
    if is_heavy(left.len(), right.len()) {
        return lean_right(cell, left, gap, right);
    }
    if is_heavy(right.len(), left.len()) {
        return lean_left(cell, left, gap, right);
    }
    fork(cell, left, gap, right)
}

// The same where the left side is heavy.
fn lean_right(cell: Box<Node>, left: Tree, gap: Piece, right: Tree) -> Tree
    requires { length (gaps_around left gap right) < 2 ^ 32 }
    ensures { items_of result ≡ gaps_around left gap right }
{
    match left {
        Tree::Empty => fork(cell, Tree::Empty, gap, right),
        Tree::Full(node) => over_right(taken(node), cell, gap, right),
    }
}

// The node on the left, or the one on its right, over the others.
fn over_right(left: Parts, cell: Box<Node>, gap: Piece, right: Tree) -> Tree
    requires { length (gaps_around left.left left.gap left.right ++ (gap ∷ items_of right)) < 2 ^ 32 }
    ensures { items_of result ≡ gaps_around left.left left.gap left.right ++ (gap ∷ items_of right) }
{
    let Parts {
        cell: top,
        left: outer,
        gap: first,
        right: inner,
    } = left;
    if inner.len() + 1 < 2 * (outer.len() + 1) {
        return fork(top, outer, first, fork(cell, inner, gap, right));
    }
    match inner {
        Tree::Empty => fork(top, outer, first, fork(cell, Tree::Empty, gap, right)),
        Tree::Full(node) => {
            let middle = taken(node);
            let low = fork(top, outer, first, middle.left);
            let high = fork(cell, middle.right, gap, right);
            fork(middle.cell, low, middle.gap, high)
        }
    }
}

// The same where the right side is heavy.
fn lean_left(cell: Box<Node>, left: Tree, gap: Piece, right: Tree) -> Tree
    requires { length (gaps_around left gap right) < 2 ^ 32 }
    ensures { items_of result ≡ gaps_around left gap right }
{
    match right {
        Tree::Empty => fork(cell, left, gap, Tree::Empty),
        Tree::Full(node) => over_left(cell, left, gap, taken(node)),
    }
}

// The node on the right, or the one on its left, over the others.
fn over_left(cell: Box<Node>, left: Tree, gap: Piece, right: Parts) -> Tree
    requires { length (items_of left ++ (gap ∷ gaps_around right.left right.gap right.right)) < 2 ^ 32 }
    ensures { items_of result ≡ items_of left ++ (gap ∷ gaps_around right.left right.gap right.right) }
{
    let Parts {
        cell: top,
        left: inner,
        gap: last,
        right: outer,
    } = right;
    if inner.len() + 1 < 2 * (outer.len() + 1) {
        return fork(top, fork(cell, left, gap, inner), last, outer);
    }
    match inner {
        Tree::Empty => fork(top, fork(cell, left, gap, Tree::Empty), last, outer),
        Tree::Full(node) => {
            let middle = taken(node);
            let low = fork(cell, left, gap, middle.left);
            let high = fork(top, middle.right, last, outer);
            fork(middle.cell, low, middle.gap, high)
        }
    }
}
