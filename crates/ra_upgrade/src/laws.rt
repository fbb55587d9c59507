//! What holds of the answers to heads, beside the contracts of the calls.
ghost use Rattle.std.specs.Prelude.{◌≡◌, ◌≢◌, ℕ, ◌<◌, Bool, List, ◌++◌, length, take, Option, Some, None, Result, Ok, Err};
ghost use Rattle.ra_base.specs.declared.token.TokenFault.TheVariants as token_faults;
ghost use Rattle.ra_upgrade.specs.declared.answer_head.AnswerFault.{AnswerFault};
ghost use Rattle.ra_upgrade.specs.declared.answer_head.AnswerFault.TheVariants as answer_faults;
ghost use Rattle.ra_upgrade.specs.declared.request_head.HeadFault.{HeadFault};
ghost use Rattle.ra_upgrade.specs.declared.request_head.HeadFault.TheVariants as head_faults;
ghost use Rattle.ra_upgrade.specs.declared.request_head.Upgrade.{Upgrade};
ghost use Rattle.ra_upgrade.specs.AnswerHeads.{AnswerIs};
ghost use Rattle.ra_upgrade.specs.AnswerTexts.{answer_text};
ghost use Rattle.ra_upgrade.specs.Exchange.{IsReadable, requested};
ghost use Rattle.ra_upgrade.specs.RequestHeads.{HeadIs};
ghost use Rattle.ra_upgrade.specs.RequestTexts.{key_text, request_text};

/// Bytes have one answer: two that the definitions allow for the same bytes are equal.
pub fn one_answer()
    ensures head { (bytes : List ℕ) (one other : Result (Option (Upgrade × ℕ)) HeadFault) → HeadIs bytes one → HeadIs bytes other → one ≡ other }
    ensures answer { (key bytes : List ℕ) (one other : Result (Option ℕ) AnswerFault) → AnswerIs key bytes one → AnswerIs key bytes other → one ≡ other }
{}

/// An answer that asks for no more bytes stands, whatever bytes follow.
pub fn more_bytes()
    ensures head { (bytes more : List ℕ) (result : Result (Option (Upgrade × ℕ)) HeadFault) → HeadIs bytes result → result ≢ Ok None → HeadIs (bytes ++ more) result }
    ensures answer { (key bytes more : List ℕ) (result : Result (Option ℕ) AnswerFault) → AnswerIs key bytes result → result ≢ Ok None → AnswerIs key (bytes ++ more) result }
{}

/// Want of memory is the answer to no bytes, and no token's fault: a call that says so has judged nothing.
pub fn memory_is_no_answer()
    ensures head { (bytes : List ℕ) → ¬ (HeadIs bytes (Err head_faults.NoMemory)) }
    ensures token { (bytes : List ℕ) → ¬ (HeadIs bytes (Err (head_faults.BadToken token_faults.NoMemory))) }
    ensures answer { (key bytes : List ℕ) → ¬ (AnswerIs key bytes (Err answer_faults.NoMemory)) }
{}

/// The server reads what the client writes: that upgrade, with the length of the request, whatever bytes follow; a proper front of
/// the request is still open.
pub fn request_is_read()
    ensures whole { (host token key more : List ℕ) (reconnection skip_frames : Bool) → IsReadable host token key
        → HeadIs (request_text host token reconnection skip_frames key ++ more) (Ok (Some (requested token reconnection skip_frames key, length (request_text host token reconnection skip_frames key)))) }
    ensures front { (host token key : List ℕ) (reconnection skip_frames : Bool) (n : ℕ) → IsReadable host token key
        → n < length (request_text host token reconnection skip_frames key) → HeadIs (take n (request_text host token reconnection skip_frames key)) (Ok None) }
{}

/// The client reads what the server writes: an answer to the client's key is accepted, with its length, whatever bytes follow; a
/// proper front of any answer is still open.
pub fn answer_is_read()
    ensures whole { (key more : List ℕ) → AnswerIs key (answer_text (key_text key) ++ more) (Ok (Some (length (answer_text (key_text key))))) }
    ensures front { (key other : List ℕ) (n : ℕ) → n < length (answer_text other) → AnswerIs key (take n (answer_text other)) (Ok None) }
{}
