//! Calls of `vertical_paths`.

use crate::answers::{Answer, NoAnswer, with_numbers};
use expansion_tree::fitted::Fitted;
use expansion_tree::matings::Mating;
use proof_text::texts::read_proof;
use std::alloc::Global;
use vertical_paths::matings::{bad_pair, first_open};

/// `PROOF`: its tree fitted to its formula, and its mating.
fn mated(alloc: Global, arguments: &str) -> Result<(Fitted, Mating), NoAnswer> {
    let proof = read_proof(alloc, arguments.as_bytes())?;
    let fitted = Fitted::new(alloc, proof.formula, proof.tree)?;
    Ok((fitted, proof.mating))
}

/// `PROOF`: the number of the first pair that isn't good, or `none`.
pub fn first_bad(alloc: Global, arguments: &str) -> Answer {
    let (fitted, mating) = mated(alloc, arguments)?;
    match bad_pair(&fitted, &mating) {
        Some(number) => Ok(format!(in alloc; "{number}")?),
        None => Ok(String::from_str(alloc, "none")?),
    }
}

/// `PROOF`: `path` with the leaves of the first path that holds no pair, or `none`.
pub fn open_path(alloc: Global, arguments: &str) -> Answer {
    let (fitted, mating) = mated(alloc, arguments)?;
    match first_open(alloc, &fitted, &mating)? {
        Some(path) => with_numbers(alloc, "path", path.as_slice()),
        None => Ok(String::from_str(alloc, "none")?),
    }
}
