//! Changes of a tree of gaps.
ghost use Rattle.std.specs.Prelude.{◌≡◌, ◌≤◌, ◌<◌, ◌+◌, ◌^◌, length, slice_index_or, slice_set};
ghost use Rattle.std.specs.List.{insert, remove};
ghost use Rattle.track_ledger.specs.declared.piece.Piece.{Piece};
ghost use Rattle.track_ledger.specs.Inner.Trees.{gaps_around, items_of};

use crate::piece::Piece;
use crate::tree::{Node, Parts, Tree, fork, taken};
use crate::turning::settled;

/// The tree with another gap at a place.
pub fn with_set(tree: Tree, index: usize, gap: Piece) -> Tree
    requires at { index < length (items_of tree) }
    requires small { length (items_of tree) < 2 ^ 32 }
    ensures { items_of result ≡ slice_set (items_of tree) index gap }
{
    match tree {
        Tree::Empty => unreachable!(),
        Tree::Full(node) => {
            let Parts {
                cell,
                left,
                gap: own,
                right,
            } = taken(node);
            let before = left.len();
            if index < before {
                return fork(cell, with_set(left, index, gap), own, right);
            }
            if before < index {
                return fork(cell, left, own, with_set(right, index - before - 1, gap));
            }
            fork(cell, left, gap, right)
        }
    }
}

/// The tree with one gap more at a place, in a spare node.
pub fn with_insert(tree: Tree, index: usize, spare: Box<Node>, gap: Piece) -> Tree
    requires at { index ≤ length (items_of tree) }
    requires small { length (items_of tree) + 1 < 2 ^ 32 }
    ensures { items_of result ≡ insert (items_of tree) index gap }
{
    match tree {
        Tree::Empty => fork(spare, Tree::Empty, gap, Tree::Empty),
        Tree::Full(node) => {
            let Parts {
                cell,
                left,
                gap: own,
                right,
            } = taken(node);
            let before = left.len();
            if index <= before {
                return settled(cell, with_insert(left, index, spare, gap), own, right);
            }
            let right = with_insert(right, index - before - 1, spare, gap);
            settled(cell, left, own, right)
        }
    }
}

/// The tree with two gaps in place of one: the second in a spare node.
pub fn with_parted(tree: Tree, index: usize, gap: Piece, spare: Box<Node>, next: Piece) -> Tree
    requires at { index < length (items_of tree) }
    requires small { length (items_of tree) + 1 < 2 ^ 32 }
    ensures { items_of result ≡ insert (slice_set (items_of tree) index gap) (index + 1) next }
{
    match tree {
        Tree::Empty => unreachable!(),
        Tree::Full(node) => {
            let Parts {
                cell,
                left,
                gap: own,
                right,
            } = taken(node);
            let before = left.len();
            if index < before {
                let left = with_parted(left, index, gap, spare, next);
                return settled(cell, left, own, right);
            }
            if before < index {
                let right = with_parted(right, index - before - 1, gap, spare, next);
                return settled(cell, left, own, right);
            }
            settled(cell, left, gap, with_insert(right, 0, spare, next))
        }
    }
}

/// A tree from which a gap was taken, the gap, and its node, which is spare now.
#[derive(Drop)]
pub struct Rest {
    pub tree: Tree,
    pub gap: Piece,
    pub spare: Box<Node>,
}

// A tree whose left side is what is left.
fn with_left(cell: Box<Node>, rest: Rest, gap: Piece, right: Tree) -> Rest
    requires { length (gaps_around rest.tree gap right) < 2 ^ 32 }
    ensures tree { items_of result.tree ≡ gaps_around rest.tree gap right }
    ensures gap { result.gap ≡ rest.gap }
{
    Rest {
        tree: settled(cell, rest.tree, gap, right),
        gap: rest.gap,
        spare: rest.spare,
    }
}

// A tree whose right side is what is left.
fn with_right(cell: Box<Node>, left: Tree, gap: Piece, rest: Rest) -> Rest
    requires { length (gaps_around left gap rest.tree) < 2 ^ 32 }
    ensures tree { items_of result.tree ≡ gaps_around left gap rest.tree }
    ensures gap { result.gap ≡ rest.gap }
{
    Rest {
        tree: settled(cell, left, gap, rest.tree),
        gap: rest.gap,
        spare: rest.spare,
    }
}

/// Takes the gap at a place from a tree.
pub fn without(tree: Tree, index: usize) -> Rest
    requires at { index < length (items_of tree) }
    requires small { length (items_of tree) < 2 ^ 32 }
    ensures tree { items_of result.tree ≡ remove (items_of tree) index }
    ensures gap { (d : Piece) → result.gap ≡ slice_index_or (items_of tree) index d }
{
    match tree {
        Tree::Empty => unreachable!(),
        Tree::Full(node) => {
            let Parts {
                cell,
                left,
                gap,
                right,
            } = taken(node);
            let before = left.len();
            if index < before {
                return with_left(cell, without(left, index), gap, right);
            }
            if before < index {
                let rest = without(right, index - before - 1);
                return with_right(cell, left, gap, rest);
            }
            if right.len() == 0 {
                return Rest {
                    tree: left,
                    gap,
                    spare: cell,
                };
            }
            let rest = without(right, 0);
            Rest {
                tree: settled(rest.spare, left, rest.gap, rest.tree),
                gap,
                spare: cell,
            }
        }
    }
}

/// Puts one gap in place of two neighbours in a tree.
pub fn with_joined(tree: Tree, index: usize, gap: Piece) -> Rest
    requires at { index + 1 < length (items_of tree) }
    requires small { length (items_of tree) < 2 ^ 32 }
    ensures { items_of result.tree ≡ remove (slice_set (items_of tree) index gap) (index + 1) }
{
    match tree {
        Tree::Empty => unreachable!(),
        Tree::Full(node) => {
            let Parts {
                cell,
                left,
                gap: own,
                right,
            } = taken(node);
            let before = left.len();
            if index + 1 < before {
                return with_left(cell, with_joined(left, index, gap), own, right);
            }
            if before < index {
                let rest = with_joined(right, index - before - 1, gap);
                return with_right(cell, left, own, rest);
            }
            if index < before {
                return with_left(cell, without(left, index), gap, right);
            }
            with_right(cell, left, gap, without(right, 0))
        }
    }
}
