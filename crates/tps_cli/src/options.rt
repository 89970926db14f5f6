//! The options of `prove`.

ghost use Rattle.std.specs.Prelude.{◌≡◌, ◌≤◌, ◌∷◌, MatchOption, [], map, string_bytes, ℕ};
ghost use Rattle.tps_cli.specs.Options.{AreBudget, AreOptions, IsNumberUpTo};
ghost use Rattle.tps_cli.specs.declared.options.Budget.{Budget};

use core_text::words::numeral;

/// The greatest weight that can be asked for.
pub const GREATEST_WEIGHT: u64 = 64;

/// The greatest level that can be asked for.
pub const GREATEST_LEVEL: u64 = 2;

/// The weight where none is asked for.
pub const USUAL_WEIGHT: u64 = 6;

/// The level where none is asked for.
pub const USUAL_LEVEL: u64 = 1;

/// Which expansion trees are looked through: those that weigh at most `weight`, 0 to 64, with terms over the signature of `level`, 0
/// to 2.
#[derive(Clone, Copy, Debug, PartialEq, Eq)]
pub struct Budget {
    pub weight: u64,
    pub level: u64,
}

/// The number that the word spells, where it is one up to the greatest.
fn number_up_to(greatest: u64, word: &str) -> Option<u64>
    ensures { MatchOption result ((n : ℕ) → IsNumberUpTo greatest word.now n → ⊥) (λ n. IsNumberUpTo greatest word.now n) }
{
    match numeral(word.as_bytes()) {
        Some(number) => {
            if number <= greatest {
                Some(number)
            } else {
                None
            }
        }
        None => None,
    }
}

/// The budget of a weight and a level.
fn budget_from(weight: &str, level: &str) -> Option<Budget>
    ensures { MatchOption result ((b : Budget) → AreBudget b weight.now level.now → ⊥) (λ b. AreBudget b weight.now level.now) }
{
    match number_up_to(GREATEST_WEIGHT, weight) {
        Some(weight) => match number_up_to(GREATEST_LEVEL, level) {
            Some(level) => Some(Budget { weight, level }),
            None => None,
        },
        None => None,
    }
}

/// The budget of one option.
#[tactic(auto, using(crate::proofs::Budgets::one_option, crate::proofs::Budgets::weight_set, crate::proofs::Budgets::level_set))]
fn budget_of_one(name: &str, number: &str) -> Option<Budget>
    ensures { MatchOption result ((b : Budget) → AreOptions b (name.now ∷ number.now ∷ []) → ⊥) (λ b. AreOptions b (name.now ∷ number.now ∷ [])) }
{
    match name {
        "--weight" => match number_up_to(GREATEST_WEIGHT, number) {
            Some(weight) => Some(Budget {
                weight,
                level: USUAL_LEVEL,
            }),
            None => None,
        },
        "--level" => match number_up_to(GREATEST_LEVEL, number) {
            Some(level) => Some(Budget {
                weight: USUAL_WEIGHT,
                level,
            }),
            None => None,
        },
        _ => None,
    }
}

/// The budget of two options.
#[tactic(auto, using(crate::proofs::Budgets::two_options, crate::proofs::Budgets::both_set, crate::proofs::Budgets::both_set_turned))]
fn budget_of_two(first: &str, number: &str, second: &str, other: &str) -> Option<Budget>
    ensures { MatchOption result ((b : Budget) → AreOptions b (first.now ∷ number.now ∷ second.now ∷ other.now ∷ []) → ⊥) (λ b. AreOptions b (first.now ∷ number.now ∷ second.now ∷ other.now ∷ [])) }
{
    match (first, second) {
        ("--weight", "--level") => budget_from(number, other),
        ("--level", "--weight") => budget_from(other, number),
        _ => None,
    }
}

/// The budget that the options set, `None` exactly where the words are none.
pub fn budget_of(options: &[String]) -> Option<Budget>
    ensures { MatchOption result ((b : Budget) → AreOptions b (map string_bytes options.now) → ⊥) (λ b. AreOptions b (map string_bytes options.now)) }
{
    match options {
        [] => Some(Budget {
            weight: USUAL_WEIGHT,
            level: USUAL_LEVEL,
        }),
        [name, number] => budget_of_one(name.as_str(), number.as_str()),
        [first, number, second, other] => budget_of_two(
            first.as_str(),
            number.as_str(),
            second.as_str(),
            other.as_str(),
        ),
        _ => None,
    }
}
