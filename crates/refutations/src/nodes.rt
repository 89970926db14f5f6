//! What is open in a case of a refutation.

use expansion_tree::trees::Tree;
use hol_terms::terms::Tm;

/// Where a node stands in the tree: its number, from 1 in preorder, and how many leaves and occurrences come before it.
#[derive(Clone, Copy)]
pub struct Place {
    pub node: u64,
    pub leaves: u64,
    pub occurrences: u64,
}

/// A node of the tree and its line, which says that the node's formula is false where the node is positive, and true where it is
/// negative.
#[derive(Clone, Copy)]
pub struct Node<'a> {
    pub positive: bool,
    pub tree: &'a Tree,
    pub line: u64,
    pub place: Place,
}

/// A term of an expansion, and the node below it, whose line is that of the expansion node. Its occurrence is the last one before that
/// node.
#[derive(Clone, Copy)]
pub struct Front<'a> {
    pub term: &'a Tm,
    pub node: Node<'a>,
}
