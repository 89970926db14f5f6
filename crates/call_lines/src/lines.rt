//! Lines of calls.

ghost use Rattle.std.specs.Prelude.{◌≡◌, ◌==◌, ◌↔◌, ◌⊎◌, IfSome, None};
ghost use Rattle.std.specs.List.{after_first, before_first};
ghost use Rattle.call_lines.specs.Lines.{HasNoSpace, IsHeading};

/// The name of the call on a line, in front of the first space, and its arguments after it. There is no call exactly
/// on a line that begins with `#`, which is a heading, and on one without a space.
pub fn call_in(line: &str) -> Option<(&str, &str)>
    ensures name { IfSome result (λ call. call.0.now ≡ before_first (λ b. b == 32) line.now) }
    ensures arguments { IfSome result (λ call. call.1.now ≡ after_first (λ b. b == 32) line.now) }
    ensures none { (result ≡ None) ↔ (IsHeading line.now ⊎ HasNoSpace line.now) }
{
    if line.as_bytes().first() == Some(&b'#') {
        return None;
    }
    line.split_once(' ')
}
