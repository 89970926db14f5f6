//! Cuts a text into brackets and words.

ghost use Rattle.std.specs.Prelude.{◌≡◌, ◌+◌, ◌-◌, ◌<◌, ◌≤◌, ◌∷◌, [], IfNone, IfSome, drop, false, length, slice_index, take, true};
ghost use Rattle.std.specs.List.{list_all};
ghost use Rattle.core_text.specs.Tokens.{is_in_word, is_white, pieces};
ghost use Rattle.core_text.specs.Lexed.{plain_piece};

/// A bracket or a word of a text, with its place.
#[derive(Clone, Copy)]
pub enum Piece<'a> {
    Opening(u64),
    Closing(u64),
    Word(&'a [u8], u64),
}

fn is_white(byte: u8) -> bool
    ensures { result ≡ is_white byte }
{
    byte == b' ' || byte == b'\t' || byte == b'\n' || byte == b'\r'
}

fn is_in_word(byte: u8) -> bool
    ensures { result ≡ is_in_word byte }
{
    !is_white(byte) && byte != b'(' && byte != b')'
}

/// The end of the white space that begins here.
fn white_end(bytes: &[u8], from: usize) -> usize
    requires { from ≤ length bytes.now }
    ensures range { (from ≤ result) × (result ≤ length bytes.now) }
    ensures same { pieces from (drop from bytes.now) ≡ pieces result (drop result bytes.now) }
    ensures stop { result < length bytes.now → is_white (slice_index bytes.now result) ≡ false }
{
    let mut at = from;
    while at < bytes.len() && is_white(bytes[at]) {
        at += 1;
    }
    at
}

/// The end of the word that begins here.
fn word_end(bytes: &[u8], from: usize) -> usize
    requires { from ≤ length bytes.now }
    ensures range { (from ≤ result) × (result ≤ length bytes.now) }
    ensures word { list_all is_in_word (take (result - from) (drop from bytes.now)) ≡ true }
    ensures stop { result < length bytes.now → is_in_word (slice_index bytes.now result) ≡ false }
{
    let mut at = from;
    while at < bytes.len() && is_in_word(bytes[at]) {
        at += 1;
    }
    at
}

/// The next bracket or word from here on, and the place after it.
pub fn next_piece(bytes: &[u8], from: usize) -> Option<(Piece<'_>, usize)>
    requires { from ≤ length bytes.now }
    ensures none { IfNone result (pieces from (drop from bytes.now) ≡ []) }
    ensures some { IfSome result (λ r. pieces from (drop from bytes.now) ≡ plain_piece r.0 ∷ pieces r.1 (drop r.1 bytes.now)) }
    ensures range { IfSome result (λ r. (from < r.1) × (r.1 ≤ length bytes.now)) }
{
    let at = white_end(bytes, from);
    if at == bytes.len() {
        return None;
    }
    if bytes[at] == b'(' {
        return Some((Piece::Opening(at as u64), at + 1));
    }
    if bytes[at] == b')' {
        return Some((Piece::Closing(at as u64), at + 1));
    }
    let end = word_end(bytes, at);
    Some((Piece::Word(&bytes[at..end], at as u64), end))
}
