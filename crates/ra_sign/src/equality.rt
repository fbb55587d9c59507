//! Comparing texts that a stranger is not to guess.
ghost use Rattle.std.specs.Prelude.{◌≡◌, bytes_eq};

/// Whether the texts are equal. Texts of one length are compared to their ends, also where an early byte differs. Nothing is
/// claimed of the time that it takes.
pub fn are_equal(left: &[u8], right: &[u8]) -> bool
    ensures { result ≡ bytes_eq left.now right.now }
{
    if left.len() != right.len() {
        return false;
    }
    let mut same = true;
    for i in 0..left.len() {
        same &= left[i] == right[i];
    }
    same
}
