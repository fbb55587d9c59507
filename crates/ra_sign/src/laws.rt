//! What holds of signatures under a key. The function has an empty body: its clauses are what is proved.
ghost use Rattle.std.specs.Prelude.{◌≡◌, ◌≤◌, ℕ, List, length, true, IsUtf8};
ghost use Rattle.ra_sign.specs.Signature.{signature_text, is_signature};

/// A text has one signature under a key, which counts and no other, and is UTF-8 of at most 65,536 bytes.
pub fn signatures()
    ensures own { (key text : List ℕ) → is_signature key text (signature_text key text) ≡ true }
    ensures no_other { (key text signature : List ℕ) → is_signature key text signature ≡ true
        → signature ≡ signature_text key text }
    ensures utf8 { (key text : List ℕ) → IsUtf8 (signature_text key text) }
    ensures short { (key text : List ℕ) → length (signature_text key text) ≤ 65536 }
{}
