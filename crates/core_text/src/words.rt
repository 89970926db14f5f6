//! Words: numerals and identifiers.

ghost use Rattle.std.specs.Prelude.{◌≡◌, ◌<◌, ◌^◌, None, Some, if◌then◌else◌, length, nat_le, nat_lt, true};
ghost use Rattle.std.specs.Char.{is_ascii_digit};
ghost use Rattle.std.specs.List.{list_all};
ghost use Rattle.std.specs.Str.{chars};
ghost use Rattle.std.specs.Str.Parse.{digits_value};
ghost use Rattle.unicode_ident.specs.Ident.{is_xid_continue};
ghost use Rattle.core_text.specs.Words.{has_leading_zero, is_identifier, is_word, numeral_of, starts_identifier};

use unicode_ident::{is_xid_continue, is_xid_start};

/// The number of characters that a word has at most.
pub const LONGEST_WORD: usize = 64;

/// The number that a numeral spells, `None` exactly where the bytes are no numeral of at most 64 bits.
pub fn numeral(bytes: &[u8]) -> Option<u64>
    ensures { result ≡ numeral_of bytes.now }
{
    if bytes.is_empty() {
        return None;
    }
    if !are_digits(bytes) {
        return None;
    }
    if has_leading_zero(bytes) {
        return None;
    }
    value_of(bytes)
}

/// Whether each byte is a digit.
fn are_digits(bytes: &[u8]) -> bool
    ensures { result ≡ list_all is_ascii_digit bytes.now }
{
    bytes.iter().all(|byte| byte.is_ascii_digit())
}

/// Whether a 0 stands first with more after it.
fn has_leading_zero(bytes: &[u8]) -> bool
    ensures { result ≡ has_leading_zero bytes.now }
{
    match bytes {
        [first, _, ..] => *first == b'0',
        _ => false,
    }
}

/// The number that the digits write, where 64 bits hold it.
fn value_of(bytes: &[u8]) -> Option<u64>
    requires some { 0 < length bytes.now }
    requires digits { list_all is_ascii_digit bytes.now ≡ true }
    ensures { result ≡ (if nat_lt (digits_value 10 bytes.now) (2 ^ 64) then Some (digits_value 10 bytes.now) else None) }
{
    match std::str::from_utf8(bytes) {
        Ok(text) => text.parse().ok(),
        Err(_) => None,
    }
}

/// Whether the bytes are 1 to 64 characters that start and continue an identifier.
pub fn is_word(bytes: &[u8]) -> bool
    ensures { result ≡ is_word bytes.now }
{
    match std::str::from_utf8(bytes) {
        Err(_) => false,
        Ok(text) => is_short(text) && is_identifier(text),
    }
}

/// Whether the text has at most 64 characters.
fn is_short(text: &str) -> bool
    ensures { result ≡ nat_le (length (chars text.now)) 64 }
{
    text.chars().count() <= LONGEST_WORD
}

/// Whether the first character may start an identifier and the others may continue one.
fn is_identifier(text: &str) -> bool
    ensures { result ≡ is_identifier (chars text.now) }
{
    starts(text) && continues(text)
}

/// Whether there is a first character and it may start an identifier.
fn starts(text: &str) -> bool
    ensures { result ≡ starts_identifier (chars text.now) }
{
    match text.chars().next() {
        None => false,
        Some(first) => is_xid_start(first),
    }
}

/// Whether each character may continue an identifier.
fn continues(text: &str) -> bool
    ensures { result ≡ list_all is_xid_continue (chars text.now) }
{
    text.chars().all(|c| is_xid_continue(c))
}
