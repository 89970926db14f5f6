//! The lines of a script.

ghost use Rattle.std.specs.Prelude.{◌≡◌, ◌≢◌, ◌==◌, ◌<◌, ◌∷◌, [], IfSome, length};
ghost use Rattle.std.specs.List.{position_from};
ghost use Rattle.etps_script.specs.Lines.{script_lines};

/// The byte at the end of a line.
pub(crate) const END_OF_LINE: u8 = b'\n';

/// Where the first line ends, if an end of line is there.
fn line_end(bytes: &[u8]) -> Option<usize>
    ensures place { result ≡ position_from (λ b. b == 10) 0 bytes.now }
    ensures within { IfSome result (λ i. i < length bytes.now) }
{
    bytes.iter().position(|b| *b == END_OF_LINE)
}

/// The first line of the bytes, and those after its end.
#[tactic(auto, using(crate::proofs::Cutting::cut_rest, crate::proofs::Cutting::cut_last))]
pub(crate) fn first_line(bytes: &[u8]) -> (&[u8], &[u8])
    requires { bytes.now ≢ [] }
    ensures cut { script_lines bytes.now ≡ result.0.now ∷ script_lines result.1.now }
    ensures shorter { length result.1.now < length bytes.now }
{
    match line_end(bytes) {
        Some(end) => (&bytes[..end], &bytes[end + 1..]),
        None => (bytes, &bytes[bytes.len()..]),
    }
}
