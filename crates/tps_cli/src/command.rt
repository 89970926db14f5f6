//! The words of the command line.

ghost use Rattle.std.specs.Prelude.{◌≡◌, ◌≢◌, ◌∷◌, MatchOption, [], codes, map, string_bytes};
ghost use Rattle.tps_cli.specs.declared.command.Command.{Command};
ghost use Rattle.tps_cli.specs.Words.{AreWordsOf};

use crate::options::{Budget, budget_of};
use core_text::words::numeral;

/// The most instances that a generated chain has.
pub const LONGEST_CHAIN: u64 = 100;

/// What the program is asked to do.
#[derive(Clone, Copy, Debug, PartialEq, Eq)]
pub enum Command {
    /// `prove`: an expansion proof of a formula, of least weight in the budget.
    Prove(Budget),
    /// `check`: whether the input is the text of an expansion proof.
    Check,
    /// `translate`: a derivation of the formula of an expansion proof.
    Translate,
    /// `verify`: whether the input is the text of a derivation.
    Verify,
    /// `show`: the lines of a derivation, printed.
    Show,
    /// `etps`: a reply to each line of a script for a deduction tutor.
    Etps,
    /// `generate N`: the figures of the chain with N instances, N from 1 to 100.
    Generate(u64),
}

/// The command of one word, which isn't `prove`.
fn command_of(word: &str) -> Option<Command>
    requires { word.now ≢ codes "prove" }
    ensures { MatchOption result ((c : Command) → AreWordsOf c (word.now ∷ []) → ⊥) (λ c. AreWordsOf c (word.now ∷ [])) }
{
    match word {
        "check" => Some(Command::Check),
        "translate" => Some(Command::Translate),
        "verify" => Some(Command::Verify),
        "show" => Some(Command::Show),
        "etps" => Some(Command::Etps),
        _ => None,
    }
}

/// The command `generate` with the number of instances.
fn generation(number: &str) -> Option<Command>
    ensures { MatchOption result ((c : Command) → AreWordsOf c (codes "generate" ∷ number.now ∷ []) → ⊥) (λ c. AreWordsOf c (codes "generate" ∷ number.now ∷ [])) }
{
    match numeral(number.as_bytes()) {
        Some(n) => {
            if 1 <= n && n <= LONGEST_CHAIN {
                Some(Command::Generate(n))
            } else {
                None
            }
        }
        None => None,
    }
}

/// The command `prove` with its options.
#[tactic(auto, using(crate::proofs::Budgets::options_within))]
fn proving(options: &[String]) -> Option<Command>
    ensures { MatchOption result ((c : Command) → AreWordsOf c (codes "prove" ∷ map string_bytes options.now) → ⊥) (λ c. AreWordsOf c (codes "prove" ∷ map string_bytes options.now)) }
{
    match budget_of(options) {
        Some(budget) => Some(Command::Prove(budget)),
        None => None,
    }
}

/// The command of a word and those after it.
fn command_with(word: &str, others: &[String]) -> Option<Command>
    ensures { MatchOption result ((c : Command) → AreWordsOf c (word.now ∷ map string_bytes others.now) → ⊥) (λ c. AreWordsOf c (word.now ∷ map string_bytes others.now)) }
{
    match word {
        "prove" => proving(others),
        "generate" => match others {
            [number] => generation(number.as_str()),
            _ => None,
        },
        _ => match others {
            [] => command_of(word),
            _ => None,
        },
    }
}

impl Command {
    /// The command that the words ask for, `None` exactly where they ask for none.
    pub fn from_words(words: &[String]) -> Option<Command>
        ensures { MatchOption result ((c : Command) → AreWordsOf c (map string_bytes words.now) → ⊥) (λ c. AreWordsOf c (map string_bytes words.now)) }
    {
        match words {
            [word, others @ ..] => command_with(word.as_str(), others),
            [] => None,
        }
    }
}
