//! The words by which a refusal is told.

ghost use Rattle.std.specs.Prelude.{◌≡◌, ◌++◌, ◌∷◌, IfOk, OnErr, OnOk, decimal};
ghost use Rattle.nd_rules.specs.Words.{fault_words};

use crate::faults::RuleFault;
use hol_terms::lists::Text;
use std::alloc::{AllocError, Global};

/// A word, a space and a number in decimal.
fn numbered(alloc: Global, word: &[u8], number: u64) -> Result<Text, AllocError>
    ensures { IfOk result (λ text. text ≡ word.now ++ 32 ∷ decimal number) }
{
    let mut text = Text::new(alloc);
    text.append(word)?;
    let digits = format!(in alloc; " {number}")?;
    text.append(digits.as_bytes())?;
    Ok(text)
}

/// Appends a word, a space and a number in decimal; after an error nothing is changed.
#[tactic(auto, using(std::proofs::Common::append_assoc))]
fn append_numbered(
    alloc: Global,
    out: &mut Text,
    word: &[u8],
    number: u64,
) -> Result<(), AllocError>
    ensures ok { OnOk result (out.new ≡ out.old ++ word.now ++ 32 ∷ decimal number) }
    ensures err { OnErr result (out.new ≡ out.old) }
{
    let text = numbered(alloc, word, number)?;
    out.append(text.as_slice())
}

impl RuleFault {
    /// Appends the words by which the refusal is told: `NOLINE k`, `NOTEARLIER k`, `SHAPE`, `HYPS`, `VARIABLE k`, `NOTFOLLOWS`,
    /// `NOTCONVERTIBLE` or `WRONGTYPE`, and nothing when memory runs out. An error comes only where memory runs out, and then nothing is
    /// changed.
    pub fn append_words(&self, alloc: Global, out: &mut Text) -> Result<(), AllocError>
        ensures ok { OnOk result (out.new ≡ out.old ++ fault_words self.now) }
        ensures err { OnErr result (out.new ≡ out.old) }
    {
        match self {
            RuleFault::Memory => Ok(()),
            RuleFault::NoLine(k) => append_numbered(alloc, out, b"NOLINE", *k),
            RuleFault::NotEarlier(k) => append_numbered(alloc, out, b"NOTEARLIER", *k),
            RuleFault::Shape => out.append(b"SHAPE"),
            RuleFault::Hyps => out.append(b"HYPS"),
            RuleFault::VariableFree(k) => append_numbered(alloc, out, b"VARIABLE", *k),
            RuleFault::NotFollows(_) => out.append(b"NOTFOLLOWS"),
            RuleFault::NotConvertible(_, _) => out.append(b"NOTCONVERTIBLE"),
            RuleFault::WrongType => out.append(b"WRONGTYPE"),
        }
    }
}
