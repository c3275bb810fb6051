//! The parts of a line.
ghost use Rattle.std.specs.Prelude.{◌≡◌, ◌==◌, not, position};
ghost use Rattle.n2k_wire.specs.Views.{Finds};
ghost use Rattle.n2k_wire.specs.Cuts.{cut_at, after_byte, skip_spaces};

#[tactic(auto, using(crate::proofs::FirstPlaces::first_place))]
fn find_byte(byte: u8, bytes: &[u8]) -> Option<usize>
    ensures { result ≡ position (λ b. b == byte) bytes.now }
{
    memchr::memchr(byte, bytes)
}

fn find_other_byte(byte: u8, bytes: &[u8]) -> Option<usize>
    ensures { result ≡ position (λ b. not (b == byte)) bytes.now }
{
    bytes.iter().position(|b| *b != byte)
}

/// The bytes before the first separator, and the bytes after it.
#[tactic(auto, unfolding(crate::specs::Cuts::cut_at))]
pub(crate) fn cut_at(separator: u8, bytes: &[u8]) -> Option<(&[u8], &[u8])>
    ensures { Finds (λ x. (x.0.now, x.1.now)) result (cut_at separator bytes.now) }
{
    let at = find_byte(separator, bytes)?;
    Some((bytes.split_at(at).0, bytes.split_at(at + 1).1))
}

/// The bytes after this byte, if they begin with it.
#[tactic(auto, unfolding(crate::specs::Cuts::after_byte))]
pub(crate) fn after_byte(first: u8, bytes: &[u8]) -> Option<&[u8]>
    ensures { Finds (λ x. x.now) result (after_byte first bytes.now) }
{
    match bytes {
        [b, rest @ ..] if *b == first => Some(rest),
        _ => None,
    }
}

/// The bytes from the first non-space on.
#[tactic(auto, unfolding(crate::specs::Cuts::skip_spaces))]
pub(crate) fn skip_spaces(bytes: &[u8]) -> Option<&[u8]>
    ensures { Finds (λ x. x.now) result (skip_spaces bytes.now) }
{
    let at = find_other_byte(b' ', bytes)?;
    Some(bytes.split_at(at).1)
}
