//! The words of commands.

ghost use Rattle.std.specs.Prelude.{◌≡◌};
ghost use Rattle.script_text.specs.Words.{command_word, numeral_count, word_of};
ghost use Rattle.tps_reader.specs.Views.{plain_sign};

use tps_reader::lexemes::Symbol;

/// The word with which a command's line begins.
#[derive(Clone, Copy)]
pub enum CommandWord {
    Prove,
    Plan,
    P,
    Deduct,
    Ui,
    Ugen,
    Egen,
    Rulec,
    Lambda,
    Rulep,
    Undo,
    Done,
}

impl CommandWord {
    /// How many numerals always stand after the word.
    pub fn numerals(self) -> usize
        ensures { result ≡ numeral_count self }
    {
        match self {
            CommandWord::Undo | CommandWord::Done => 0,
            CommandWord::Prove | CommandWord::Plan | CommandWord::P | CommandWord::Rulep => 1,
            CommandWord::Ui | CommandWord::Ugen | CommandWord::Egen | CommandWord::Lambda => 2,
            CommandWord::Deduct => 3,
            CommandWord::Rulec => 4,
        }
    }
}

/// The command of which the characters are the word, if there is one.
fn word_of(word: &[char]) -> Option<CommandWord>
    ensures { result ≡ word_of word.now }
{
    if word == ['P', 'R', 'O', 'V', 'E'].as_slice() {
        return Some(CommandWord::Prove);
    }
    if word == ['P', 'L', 'A', 'N'].as_slice() {
        return Some(CommandWord::Plan);
    }
    if word == ['P'].as_slice() {
        return Some(CommandWord::P);
    }
    if word == ['D', 'E', 'D', 'U', 'C', 'T'].as_slice() {
        return Some(CommandWord::Deduct);
    }
    if word == ['U', 'I'].as_slice() {
        return Some(CommandWord::Ui);
    }
    if word == ['U', 'G', 'E', 'N'].as_slice() {
        return Some(CommandWord::Ugen);
    }
    if word == ['E', 'G', 'E', 'N'].as_slice() {
        return Some(CommandWord::Egen);
    }
    if word == ['R', 'U', 'L', 'E', 'C'].as_slice() {
        return Some(CommandWord::Rulec);
    }
    if word == ['L', 'A', 'M', 'B', 'D', 'A'].as_slice() {
        return Some(CommandWord::Lambda);
    }
    if word == ['R', 'U', 'L', 'E', 'P'].as_slice() {
        return Some(CommandWord::Rulep);
    }
    if word == ['U', 'N', 'D', 'O'].as_slice() {
        return Some(CommandWord::Undo);
    }
    if word == ['D', 'O', 'N', 'E'].as_slice() {
        return Some(CommandWord::Done);
    }
    None
}

/// The command of which a token is the word, if there is one.
pub fn command_word(symbol: &Symbol) -> Option<CommandWord>
    ensures { result ≡ command_word (plain_sign symbol.now) }
{
    match symbol {
        Symbol::Word(word) => word_of(word.as_slice()),
        _ => None,
    }
}
