//! Cutting bytes at a byte.

ghost use Rattle.std.specs.Prelude.{◌≡◌, ◌==◌, position};
ghost use Rattle.racp_text.specs.Cuts.{IsCut};

/// What stands before the first such byte, and what after it, or `None` if there is none.
pub fn cut_at(bytes: &[u8], byte: u8) -> Option<(&[u8], &[u8])>
    ensures { IsCut (λ b. b == byte) bytes.now result }
{
    let end = place_of(bytes, byte)?;
    Some((&bytes[..end], &bytes[end + 1..]))
}

/// The place of the first such byte, from 0.
fn place_of(bytes: &[u8], byte: u8) -> Option<usize>
    ensures { result ≡ position (λ b. b == byte) bytes.now }
{
    bytes.iter().position(|b| *b == byte)
}
