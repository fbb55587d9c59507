//! The laws.
ghost use Rattle.std.specs.Prelude.{◌≡◌, ◌≢◌, ℕ, Bool, List, [], ◌++◌, Option};
ghost use Rattle.ra_base.specs.declared.key.Key.{Key};
ghost use Rattle.ra_base.specs.declared.kind.Kind.TheVariants.{Tunnel};
ghost use Rattle.ra_opening.specs.Openings.{opened};
ghost use Rattle.ra_link_core.specs.LinkRuns.{Welcome};
ghost use Rattle.ra_dial.specs.Handshakes.{looked_at, fed};
ghost use Rattle.ra_dial.specs.Clients.{new_shaking, request_of};
ghost use Rattle.ra_dial.specs.ShakingStates.{ShakingState};
ghost use Rattle.ra_grand_runs.specs.SetUps.{settings_for, request_head, answer_head, grounds};
ghost use Rattle.ra_handshake_laws.specs.Handshakes.{client_text, OpensAt, Speaks, ReadsHandshake, HasSaid, LooksTo};

/// The opening of a link at the server, on a front of what its client writes: it asks for the client's session exactly where all was read,
/// and what it writes depends on its first draw alone.
pub fn openings()
    ensures opens { (owner : Key) (reconnection : Bool) (key own theirs : List ℕ) (draw : ℕ → List ℕ) (text rest : List ℕ)
        → owner.kind ≢ Tunnel → text ++ rest ≡ client_text owner reconnection key own theirs
        → OpensAt owner reconnection key own theirs (draw 0) text
        (opened (grounds draw) (request_head (settings_for owner) reconnection key) text).stage
        (opened (grounds draw) (request_head (settings_for owner) reconnection key) text) }
    ensures draws { (owner : Key) (reconnection : Bool) (key own theirs : List ℕ) (draw : ℕ → List ℕ) (text rest : List ℕ)
        → owner.kind ≢ Tunnel → text ++ rest ≡ client_text owner reconnection key own theirs
        → opened (grounds draw) (request_head (settings_for owner) reconnection key) text
        ≡ opened (grounds (λ n. draw 0)) (request_head (settings_for owner) reconnection key) text }
{}

/// The handshake of a client on what such a server writes.
pub fn handshakes()
    ensures begins { (owner : Key) (reconnection : Bool) (key own : List ℕ)
        → ReadsHandshake owner key own [] (new_shaking (settings_for owner) key own)
        × HasSaid owner reconnection key own (request_of (settings_for owner) reconnection key)
        (new_shaking (settings_for owner) key own).key (new_shaking (settings_for owner) key own).shake.has_answered }
    ensures feeds { (owner : Key) (key own read piece : List ℕ) (s : ShakingState) → ReadsHandshake owner key own read s
        → ReadsHandshake owner key own (read ++ piece) (fed piece s) }
    ensures looks { (owner : Key) (reconnection : Bool) (key own read more out : List ℕ) (welcome : Option Welcome) (s : ShakingState)
        → owner.kind ≢ Tunnel → ReadsHandshake owner key own read s → Speaks owner.kind key welcome out → read ++ more ≡ out
        → LooksTo owner reconnection key own read welcome s
        (looked_at (settings_for owner) (answer_head s.key s.unread) s).0 (looked_at (settings_for owner) (answer_head s.key s.unread) s).1 }
{}
