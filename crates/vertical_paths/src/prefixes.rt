//! The part of a path that was walked.

ghost use Rattle.std.specs.Prelude.{◌≡◌, ◌+◌, ◌<◌, ◌++◌, ◌∷◌, [], ◌==◌, ◌||◌, IfOk, OnOk, length, take};
ghost use Rattle.std.specs.List.{list_any};
ghost use Rattle.vertical_paths.specs.Matings.{is_on};
ghost use Rattle.vertical_paths.specs.Partners.{AreCounts};

use std::alloc::{AllocError, Global};

/// The leaves that were walked, and at each number how often that leaf is among them.
#[derive(Drop)]
pub struct Prefix {
    pub leaves: Vec<u64>,
    counts: Vec<u64>,
}

impl Prefix {
    /// No leaf yet, of those with numbers below `bound`.
    pub fn new(alloc: Global, bound: usize) -> Result<Prefix, AllocError>
        ensures leaves { IfOk result (λ prefix. prefix.leaves.items ≡ []) }
        ensures counts { IfOk result (λ prefix. AreCounts prefix.counts.items prefix.leaves.items) }
        ensures bound { IfOk result (λ prefix. length prefix.counts.items ≡ bound) }
    {
        Ok(Prefix {
            leaves: Vec::new(alloc),
            counts: vec![in alloc; 0; bound]?,
        })
    }

    /// Whether the leaf is among them.
    pub fn has(&self, leaf: u64) -> bool
        requires { AreCounts self.now.counts.items self.now.leaves.items }
        ensures { result ≡ is_on self.now.leaves.items leaf }
    {
        match self.counts.get(leaf as usize) {
            Some(count) => *count > 0,
            None => false,
        }
    }

    /// Whether the leaf, with these partners, would stand beside one of them here.
    pub fn meets(&self, leaf: u64, partners: &[u64]) -> bool
        requires { AreCounts self.now.counts.items self.now.leaves.items }
        ensures { result ≡ list_any (λ partner. (partner == leaf) || is_on self.now.leaves.items partner) partners.now }
    {
        partners
            .iter()
            .any(|partner| *partner == leaf || self.has(*partner))
    }

    /// Puts a leaf after the others.
    pub fn push(&mut self, leaf: u64) -> Result<(), AllocError>
        requires counts { AreCounts self.old.counts.items self.old.leaves.items }
        requires below { leaf < length self.old.counts.items }
        ensures leaves { OnOk result (self.new.leaves.items ≡ self.old.leaves.items ++ leaf ∷ []) }
        ensures counts { OnOk result (AreCounts self.new.counts.items self.new.leaves.items) }
        ensures bound { length self.new.counts.items ≡ length self.old.counts.items }
    {
        self.leaves.push(leaf)?;
        self.counts[leaf as usize] += 1;
        Ok(())
    }

    /// Takes the last leaves off, so that no more than `most` are left.
    pub fn cut(&mut self, most: usize)
        requires { AreCounts self.old.counts.items self.old.leaves.items }
        ensures leaves { self.new.leaves.items ≡ take most self.old.leaves.items }
        ensures counts { AreCounts self.new.counts.items self.new.leaves.items }
        ensures bound { length self.new.counts.items ≡ length self.old.counts.items }
    {
        while self.leaves.len() > most {
            if let Some(leaf) = self.leaves.pop() {
                self.counts[leaf as usize] -= 1;
            }
        }
    }
}
