//! The laws.
ghost use Rattle.std.specs.Prelude.{◌≡◌, ℕ, ◌<◌, true, List, [], ◌∷◌, ◌++◌, None, Some, length, slice_index_or, is_some, if◌then◌else◌};
ghost use Rattle.ra_base.specs.declared.handshake.Reason.TheVariants.{SeenBefore, Duplicate};
ghost use Rattle.ra_base.specs.declared.handshake.Request.{Request};
ghost use Rattle.ra_keep.specs.declared.record.Record.{Record};
ghost use Rattle.ra_registry.specs.Admission.{admission_refusal, key_of, seat_for};
ghost use Rattle.ra_registry.specs.KeptRecords.{IsKept, record_of, records_of};
ghost use Rattle.ra_registry.specs.Legal.{IsLegal};
ghost use Rattle.ra_registry.specs.RegistryStates.{RegistryState};
ghost use Rattle.ra_registry.specs.Rows.{same_key};
ghost use Rattle.ra_audit.specs.Audits.{AreDue};
ghost use Rattle.ra_record_laws.specs.Servers.{Server, Call, HasStarted, Runs};

/// The records of a legal history are due behind due start records, and so is the record of the next acceptance.
pub fn histories()
    ensures due { (registry : RegistryState) → IsLegal registry → AreDue registry.start → AreDue (registry.start ++ records_of registry.history) }
    ensures next { (registry : RegistryState) (ask : Request) (now : ℕ) → IsLegal registry → AreDue registry.start → admission_refusal registry ask now ≡ None
        → AreDue ((registry.start ++ records_of registry.history) ++ record_of (seat_for registry ask) now ∷ []) }
{}

/// Of a server that has started from the records that its keeper tells, behind any calls and starts of it: where its keeper still tells, its
/// records are those at the first start and then others; they are due where those were, as none at all are; and each session among those at
/// the first start is over.
pub fn servers()
    ensures kept { (calls : List Call) (first last : Server) → HasStarted first → Runs calls first last → IsKept last.told last.hub.registry }
    ensures behind { (calls : List Call) (first last : Server) (start list : List Record) → HasStarted first → Runs calls first last
        → first.told ≡ Some start → last.told ≡ Some list → (more : List Record) × (list ≡ start ++ more) }
    ensures due { (calls : List Call) (first last : Server) (start list : List Record) → HasStarted first → Runs calls first last
        → first.told ≡ Some start → AreDue start → last.told ≡ Some list → AreDue list }
    ensures empty { (calls : List Call) (first last : Server) (list : List Record) → HasStarted first → Runs calls first last
        → first.told ≡ Some [] → last.told ≡ Some list → AreDue list }
    ensures over { (calls : List Call) (first last : Server) (start list : List Record) (i : ℕ) (d : Record) (ask : Request) (now : ℕ)
        → HasStarted first → Runs calls first last → first.told ≡ Some start → last.told ≡ Some list
        → i < length start → same_key (slice_index_or start i d).key (key_of ask) ≡ true → is_some ask.kind ≡ true
        → admission_refusal last.hub.registry ask now ≡ Some (if ask.reconnection then SeenBefore else Duplicate) }
{}
