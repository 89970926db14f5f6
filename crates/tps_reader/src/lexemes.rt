//! The tokens of formula text, as the program holds them.

/// What a token says: a bracket or another mark, the number of a numeral, or the characters of a word.
#[derive(Drop)]
pub enum Symbol {
    OpenSquare,
    CloseSquare,
    OpenRound,
    CloseRound,
    Dot,
    Tilde,
    Semicolon,
    Numeral(u64),
    Word(Vec<char>),
}

/// A token with the place of its first byte, counted from 0, and the number of its bytes.
#[derive(Drop)]
pub struct Lexeme {
    pub symbol: Symbol,
    pub place: u64,
    pub length: u64,
}
