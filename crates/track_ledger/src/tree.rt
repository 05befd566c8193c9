//! Gaps in a tree, by start.
ghost use Rattle.std.specs.Prelude.{◌≡◌, ◌≤◌, ◌<◌, ◌^◌, ◌∷◌, ◌++◌, ◌&&◌, [], find, length, max, nat_le, not};
ghost use Rattle.std.specs.Prelude.{slice_index_or, IfSome};
ghost use Rattle.std.specs.List.{All};
ghost use Rattle.track_ledger.specs.declared.piece.Piece.{Piece};
ghost use Rattle.track_ledger.specs.GapRule.{comes_first};
ghost use Rattle.track_ledger.specs.Inner.GapChanges.{AreInOrder, IsFirstReaching};
ghost use Rattle.track_ledger.specs.Inner.GapLists.{StandApart};
ghost use Rattle.track_ledger.specs.Inner.Measures.{AreLongest, cuts_by, longest_among};
ghost use Rattle.track_ledger.specs.Inner.Trees.{gaps_around, items_of};

use crate::gap_rule::is_first;
use crate::measure::{Longest, Measure, lengths_of, longer, units_in};
use crate::piece::Piece;
use std::marker::Model;
use std::mem::replace;

/// A gap between those before it and those behind it.
#[cycle(tree)]
#[derive(Drop)]
pub struct Node {
    left: Tree,
    gap: Piece,
    right: Tree,
    count: u32,
    longest: Longest,
}

/// Gaps by start. Each node knows how many gaps it has and how long the longest of them are; that as many lie on either
/// side, or nearly so, shows in the time alone.
#[cycle(tree)]
#[derive(Drop)]
pub enum Tree {
    Empty,
    Full(Box<Node>),
}

/// What a node is taken apart into.
#[derive(Drop)]
pub struct Parts {
    pub cell: Box<Node>,
    pub left: Tree,
    pub gap: Piece,
    pub right: Tree,
}

impl Model for Node {
    ghost use Rattle.std.specs.Prelude.{List, length};
    ghost use Rattle.track_ledger.specs.declared.piece.Piece.{Piece};

    ghost Value = { List Piece };

    ghost use Rattle.track_ledger.specs.Inner.Trees.{IsNode, gaps_around};

    ghost view = { λ n. gaps_around n.left n.gap n.right };

    ghost invariant = { λ n. IsNode (gaps_around n.left n.gap n.right) n.count n.longest };

    ghost size = { length };

    ghost use Rattle.std.proofs.Common.{arith, length-append};

    ghost size_decreases = { λ n h. Prim.grind (arith, length-append) };
}

impl Node {
    // A gap between two sides.
    fn new(left: Tree, gap: Piece, right: Tree) -> Node
        requires { length (gaps_around left gap right) < 2 ^ 32 }
        ensures { result ≡ gaps_around left gap right }
    {
        let count = (left.len() + right.len() + 1) as u32;
        let longest = longer(lengths_of(&gap), longer(left.longest(), right.longest()));
        Node {
            left,
            gap,
            right,
            count,
            longest,
        }
    }

    /// An empty gap alone.
    pub fn blank() -> Node {
        Node {
            left: Tree::Empty,
            gap: Piece {
                start: 0,
                length: 0,
            },
            right: Tree::Empty,
            count: 1,
            longest: Longest {
                tracks: 0,
                cylinders: 0,
                managed: 0,
            },
        }
    }

    // The sides and the gap between them.
    fn into_parts(self) -> (Tree, Piece, Tree)
        ensures { self ≡ gaps_around result.0 result.1 result.2 }
    {
        let Node {
            left,
            gap,
            right,
            ..
        } = self;
        (left, gap, right)
    }
}

/// A node with a gap between two sides.
pub fn fork(cell: Box<Node>, left: Tree, gap: Piece, right: Tree) -> Tree
    requires { length (gaps_around left gap right) < 2 ^ 32 }
    ensures { items_of result ≡ gaps_around left gap right }
{
    let mut cell = cell;
    *cell = Node::new(left, gap, right);
    Tree::Full(cell)
}

/// Takes a node apart.
pub fn taken(cell: Box<Node>) -> Parts
    ensures { cell.value ≡ gaps_around result.left result.gap result.right }
{
    let mut cell = cell;
    let (left, gap, right) = replace(&mut *cell, Node::blank()).into_parts();
    Parts {
        cell,
        left,
        gap,
        right,
    }
}

impl Tree {
    /// How many gaps there are.
    pub fn len(&self) -> usize
        ensures value { result ≡ length (items_of self.now) }
        ensures small { result < 2 ^ 32 }
    {
        match self {
            Tree::Empty => 0,
            Tree::Full(node) => node.count as usize,
        }
    }

    /// How long the longest are.
    pub fn longest(&self) -> Longest
        ensures { AreLongest (items_of self.now) result }
    {
        match self {
            Tree::Empty => Longest {
                tracks: 0,
                cylinders: 0,
                managed: 0,
            },
            Tree::Full(node) => node.longest,
        }
    }

    /// The gap at a place.
    pub fn get(&self, index: usize) -> Piece
        requires { index < length (items_of self.now) }
        ensures { (d : Piece) → result ≡ slice_index_or (items_of self.now) index d }
    {
        match self {
            Tree::Empty => unreachable!(),
            Tree::Full(cell) => {
                let node: &Node = cell;
                let before = node.left.len();
                if index < before {
                    node.left.get(index)
                } else if before < index {
                    node.right.get(index - before - 1)
                } else {
                    node.gap
                }
            }
        }
    }

    /// The place of the first gap that ends at the track or behind it.
    pub fn reaching(&self, track: u64) -> usize
        requires { AreInOrder (items_of self.now) }
        ensures { IsFirstReaching (items_of self.now) track result }
    {
        match self {
            Tree::Empty => 0,
            Tree::Full(cell) => {
                let node: &Node = cell;
                if node.gap.end() < track {
                    let before = node.count as usize - node.right.len();
                    before + node.right.reaching(track)
                } else {
                    node.left.reaching(track)
                }
            }
        }
    }

    /// The lowest gap that holds so many tracks in a part, in whole units: no side is gone into that has none.
    pub fn lowest_holding(&self, measure: Measure, tracks: u64) -> Option<Piece>
        ensures lowest { result ≡ find (λ gap. nat_le tracks gap.length) (cuts_by measure (items_of self.now)) }
        ensures holds { IfSome result (λ gap. tracks ≤ gap.length) }
    {
        match self {
            Tree::Empty => None,
            Tree::Full(cell) => {
                let node: &Node = cell;
                if u64::from(node.longest.by(measure)) < tracks {
                    return None;
                }
                if let Some(gap) = node.left.lowest_holding(measure, tracks) {
                    return Some(gap);
                }
                if let Some(gap) = cut_holding(&node.gap, measure, tracks) {
                    return Some(gap);
                }
                node.right.lowest_holding(measure, tracks)
            }
        }
    }

    /// How long the longest gap of a part is, in whole units, of those that stand behind another, longest first. Where
    /// all of a side do, it is not gone into; `from` is a track before which none of the gaps begins.
    pub fn longest_behind(&self, measure: Measure, from: u32, last: &Piece) -> u32
        requires apart { StandApart (items_of self.now) }
        requires behind { All (λ gap. from ≤ gap.start) (items_of self.now) }
        ensures { result ≡ longest_among (λ cut. not (comes_first cut last.now)) (cuts_by measure (items_of self.now)) }
    {
        match self {
            Tree::Empty => 0,
            Tree::Full(cell) => {
                let node: &Node = cell;
                let best = Piece {
                    start: from,
                    length: node.longest.by(measure),
                };
                if !is_first(&best, last) {
                    return best.length;
                }
                let left = node.left.longest_behind(measure, from, last);
                let right = node.right.longest_behind(measure, node.gap.start, last);
                length_behind(&node.gap, measure, left.max(right), last)
            }
        }
    }

    /// The lowest gap of a part, in whole units, that holds so many tracks and stands behind another, longest first: no
    /// side is gone into where none holds them.
    pub fn lowest_behind(&self, measure: Measure, tracks: u32, last: &Piece) -> Option<Piece>
        ensures { result ≡
            find (λ cut. not (comes_first cut last.now) && nat_le tracks cut.length)
            (cuts_by measure (items_of self.now)) }
    {
        match self {
            Tree::Empty => None,
            Tree::Full(cell) => {
                let node: &Node = cell;
                if node.longest.by(measure) < tracks {
                    return None;
                }
                if let Some(gap) = node.left.lowest_behind(measure, tracks, last) {
                    return Some(gap);
                }
                if let Some(gap) = cut_behind(&node.gap, measure, tracks, last) {
                    return Some(gap);
                }
                node.right.lowest_behind(measure, tracks, last)
            }
        }
    }
}

// The whole units of a gap in a part, if they are so many tracks.
fn cut_holding(gap: &Piece, measure: Measure, tracks: u64) -> Option<Piece>
    ensures lowest { result ≡ find (λ gap. nat_le tracks gap.length) (cuts_by measure (gap.now ∷ [])) }
    ensures holds { IfSome result (λ gap. tracks ≤ gap.length) }
{
    if u64::from(gap.length) < tracks {
        return None;
    }
    let cut = units_in(gap, measure)?;
    if u64::from(cut.length) < tracks {
        return None;
    }
    Some(cut)
}

// How long the whole units of a gap in a part are, if they stand behind another gap, or `least` where that is more.
fn length_behind(gap: &Piece, measure: Measure, least: u32, last: &Piece) -> u32
    ensures { result ≡ max least (longest_among (λ cut. not (comes_first cut last.now))
        (cuts_by measure (gap.now ∷ []))) }
{
    if gap.length <= least {
        return least;
    }
    match units_in(gap, measure) {
        Some(cut) => {
            if is_first(&cut, last) {
                return least;
            }
            least.max(cut.length)
        }
        None => least,
    }
}

// The whole units of a gap in a part, if they are so many tracks and stand behind another gap.
fn cut_behind(gap: &Piece, measure: Measure, tracks: u32, last: &Piece) -> Option<Piece>
    ensures { result ≡
        find (λ cut. not (comes_first cut last.now) && nat_le tracks cut.length) (cuts_by measure (gap.now ∷ [])) }
{
    if gap.length < tracks {
        return None;
    }
    let cut = units_in(gap, measure)?;
    if cut.length < tracks {
        return None;
    }
    if is_first(&cut, last) {
        return None;
    }
    Some(cut)
}
