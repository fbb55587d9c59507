//! That a text is UTF-8, as a fact for its callers' proofs.
ghost use Rattle.std.specs.Prelude.{IsUtf8};

use ra_values::Text;

/// A text is UTF-8. This says so, and does nothing.
pub fn is_text(text: &Text)
    ensures { IsUtf8 text.now }
{
    let _text = text.as_str();
}
