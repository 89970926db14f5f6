//! Base letters.

ghost use Rattle.std.specs.Prelude.{◌≡◌, ◌≤◌, MatchOption};

/// A base letter: a byte from A to Z. The letter O stands for the type of truth values.
#[derive(Clone, Copy, Debug, PartialEq, Eq)]
pub struct Letter {
    byte: u8,
    ghost from_a: { 65 ≤ byte },
    ghost to_z: { byte ≤ 90 },
}

impl Letter {
    /// The letter of a byte, `None` exactly for a byte that is none of A to Z.
    pub fn new(byte: u8) -> Option<Letter>
        ensures { MatchOption result (65 ≤ byte → byte ≤ 90 → ⊥) (λ letter. letter.byte ≡ byte) }
    {
        if byte.is_ascii_uppercase() {
            Some(Letter { byte })
        } else {
            None
        }
    }

    /// The letter O, for the type of truth values.
    pub fn truth() -> Letter
        ensures { result.byte ≡ 79 }
    {
        Letter { byte: b'O' }
    }

    /// The byte, from A to Z.
    pub fn byte(self) -> u8
        ensures { result ≡ self.byte }
    {
        self.byte
    }
}
