//! What holds of the handshake's texts, of the verdict on a client and of the two ends together. Each function has an empty
//! body: its clauses are what is proved.
ghost use Rattle.std.specs.Prelude.{◌≡◌, ◌≢◌, ℕ, ◌+◌, ◌*◌, ◌<◌, ◌≤◌, ◌^◌, Bool, true, false, List, ◌++◌, length, Option, Some, IsUtf8};
ghost use Rattle.std.specs.Option.{option_or};
ghost use Rattle.serde_json.specs.Data.{Data};
ghost use Rattle.ra_base.specs.Outcome.{first_that};
ghost use Rattle.ra_base.specs.Reasons.{reason_text};
ghost use Rattle.ra_base.specs.TokenGrammar.{IsToken};
ghost use Rattle.ra_base.specs.declared.handshake.Reason.{Reason};
ghost use Rattle.ra_base.specs.declared.kind.Kind.{Kind};
ghost use Rattle.ra_base.specs.declared.kind.Kind.TheVariants as kinds;
ghost use Rattle.ra_sign.specs.Signature.{signature_text, is_signature};
ghost use Rattle.ra_shake.specs.declared.settings.ShakeSettings.{ShakeSettings};
ghost use Rattle.ra_shake.specs.declared.server.Stage.TheVariants as stages;
ghost use Rattle.ra_shake.specs.declared.server.ShakeStep.TheVariants as server_steps;
ghost use Rattle.ra_shake.specs.declared.client.ClientStep.TheVariants as client_steps;
ghost use Rattle.ra_shake.specs.Made.{made_text};
ghost use Rattle.ra_shake.specs.Reading.{reading};
ghost use Rattle.ra_shake.specs.Texts.{auth_value, auth_text, sign_value, sign_text, connection_value, connection_text, accept_value, accept_text, refuse_value, refuse_text};
ghost use Rattle.ra_shake.specs.Verdict.{is_authorized, versions_differ, is_signed, judge_first, judge_second, judge_both, wanted_kind};
ghost use Rattle.ra_shake.specs.States.{ServerState, ClientState};
ghost use Rattle.ra_shake.specs.Server.{server_step, server_after, refuse_or};
ghost use Rattle.ra_shake.specs.Client.{client_step, kind_number};
ghost use Rattle.ra_shake.specs.Whole.{AreNew, Succeeds};

/// What is made of drawn bytes is a token, of 36 bytes, and UTF-8, as a challenge has to be.
pub fn made_texts()
    ensures token { (bytes : List ℕ) → IsToken (made_text bytes) }
    ensures utf8 { (bytes : List ℕ) → IsUtf8 (made_text bytes) }
    ensures len { (bytes : List ℕ) → length (made_text bytes) ≡ 36 }
{}

/// Each text of a handshake is read back as the object of its members.
pub fn reading_back()
    ensures auth { (secret challenge : List ℕ) → IsUtf8 secret → IsUtf8 challenge
        → reading (auth_text secret challenge) ≡ Some (auth_value secret challenge) }
    ensures sign { (challenge signature : List ℕ) → IsUtf8 challenge → IsUtf8 signature
        → reading (sign_text challenge signature) ≡ Some (sign_value challenge signature) }
    ensures connection { (commit : List ℕ) (kind : ℕ) (signature : List ℕ) → IsUtf8 commit → kind < 2 ^ 64
        → IsUtf8 signature
        → reading (connection_text commit kind signature) ≡ Some (connection_value commit kind signature) }
    ensures accept { (kind : Kind) → reading (accept_text kind) ≡ Some (accept_value kind) }
    ensures refuse { (reason : Reason) → reading (refuse_text reason) ≡ Some (refuse_value reason) }
{}

/// A text has at most six bytes for each byte that it is made of, and 500 more.
pub fn text_lengths()
    ensures auth { (secret challenge : List ℕ)
        → length (auth_text secret challenge) ≤ 6 * (length secret + length challenge) + 500 }
    ensures sign { (challenge signature : List ℕ)
        → length (sign_text challenge signature) ≤ 6 * (length challenge + length signature) + 500 }
    ensures connection { (commit : List ℕ) (kind : ℕ) (signature : List ℕ) → kind < 2 ^ 64
        → length (connection_text commit kind signature) ≤ 6 * (length commit + length signature) + 500 }
    ensures accept { (kind : Kind) → length (accept_text kind) ≤ 500 }
    ensures refuse { (reason : Reason) → length (refuse_text reason) ≤ 500 }
{}

/// Over both messages the server refuses for the first reason of one table, and asks where there is none.
pub fn one_verdict()
    ensures joined { (before after : List (Bool × Reason))
        → first_that (before ++ after) ≡ option_or (first_that before) (first_that after) }
    ensures both { (settings : ShakeSettings) (counts : List ℕ → Bool) (first second : Option Data)
        → judge_both settings counts first second
        ≡ option_or (judge_first settings.secret first) (judge_second settings counts second) }
    ensures first { (signature : List ℕ → List ℕ) (counts : List ℕ → List ℕ → Bool) (s : ServerState)
        (body second : List ℕ) (reason : Reason) → s.stage ≡ stages.First
        → judge_first s.settings.secret (reading body) ≡ Some reason
        → (server_step signature counts s body ≡ server_steps.Refuse reason)
        × (judge_both s.settings (counts s.challenge) (reading body) (reading second) ≡ Some reason) }
    ensures second { (signature : List ℕ → List ℕ) (counts : List ℕ → List ℕ → Bool) (s : ServerState)
        (first second text : List ℕ) → s.stage ≡ stages.First
        → server_step signature counts s first ≡ server_steps.Say text
        → server_step signature counts (server_after s (server_steps.Say text)) second
        ≡ refuse_or (server_steps.Ask
        (record { kind = wanted_kind (reading second); token = s.token; reconnection = s.reconnection }))
        (judge_both s.settings (counts s.challenge) (reading first) (reading second)) }
{}

/// What the server does on the client's texts.
pub fn server_on_client_texts()
    ensures first { (signature : List ℕ → List ℕ) (counts : List ℕ → List ℕ → Bool) (s : ServerState)
        (secret challenge : List ℕ) → s.stage ≡ stages.First → IsUtf8 secret → IsUtf8 challenge
        → is_authorized s.settings.secret (Some secret) ≡ true
        → server_step signature counts s (auth_text secret challenge)
        ≡ server_steps.Say (sign_text s.challenge (signature challenge)) }
    ensures second { (signature : List ℕ → List ℕ) (counts : List ℕ → List ℕ → Bool) (s : ServerState)
        (commit : List ℕ) (kind : Kind) (signed : List ℕ) → s.stage ≡ stages.Second → kind ≢ kinds.Tunnel
        → IsUtf8 commit → IsUtf8 signed → versions_differ s.settings.commit (Some commit) ≡ false
        → is_signed s.settings.secret (counts s.challenge) (Some signed) ≡ true
        → server_step signature counts s (connection_text commit (kind_number kind) signed)
        ≡ server_steps.Ask (record { kind = Some kind; token = s.token; reconnection = s.reconnection }) }
{}

/// What the client does on the server's texts.
pub fn client_on_server_texts()
    ensures sign { (signature : List ℕ → List ℕ) (s : ClientState) (challenge signed : List ℕ)
        → s.has_answered ≡ false → IsUtf8 challenge → IsUtf8 signed
        → client_step signature s (sign_text challenge signed)
        ≡ client_steps.Say (connection_text s.settings.commit (kind_number s.kind) (signature challenge)) }
    ensures accept { (signature : List ℕ → List ℕ) (s : ClientState) → s.has_answered ≡ true
        → s.kind ≢ kinds.Tunnel → client_step signature s (accept_text s.kind) ≡ client_steps.Done }
    ensures refuse { (signature : List ℕ → List ℕ) (s : ClientState) (reason : Reason)
        → client_step signature s (refuse_text reason) ≡ client_steps.Refused (reason_text reason) }
{}

/// A client and a server of equal settings come to a request, and to an end where it is accepted, if the client's signature
/// counts at the server.
pub fn equal_settings_succeed()
    ensures { (client_signs server_signs : List ℕ → List ℕ) (counts : List ℕ → List ℕ → Bool)
        (client : ClientState) (server : ServerState) → AreNew client server
        → IsUtf8 (server_signs client.challenge) → IsUtf8 (client_signs server.challenge)
        → counts server.challenge (client_signs server.challenge) ≡ true
        → Succeeds client_signs server_signs counts client server }
{}

/// Two signers of one key are enough for equal settings.
pub fn equal_keys_succeed()
    ensures { (key : List ℕ) (client : ClientState) (server : ServerState) → AreNew client server
        → Succeeds (signature_text key) (signature_text key) (is_signature key) client server }
{}
