//! What may be added to a tree.

use crate::names::TakenNames;
use term_lists::heads::Head;

/// What a branch may be added with: a term of exactly the weight, whose heads are of the signature, selected or bound; its selected
/// variables get names that aren't taken, with numbers from `next` on.
#[derive(Clone, Copy)]
pub struct Addition<'a> {
    pub taken: &'a TakenNames,
    pub signature: &'a [Head],
    pub selected: &'a [Head],
    pub weight: u64,
    pub next: u64,
}
