//! What holds of every legal history, and what a request means for others. Each function has an empty body: its clauses are what is
//! proved.
ghost use Rattle.std.specs.Prelude.{◌≡◌, ◌⊎◌, ℕ, ◌+◌, ◌<◌, ◌≤◌, Bool, true, false, Some, None, List, ◌∷◌, ◌++◌, [], length, map, take, slice_index_or, option_map, is_some, if◌then◌else◌};
ghost use Rattle.std.specs.List.{list_any};
ghost use Rattle.ra_base.specs.Outcome.{first_that};
ghost use Rattle.ra_base.specs.declared.handshake.Reason.{Reason};
ghost use Rattle.ra_base.specs.declared.handshake.Reason.TheVariants.{SeenBefore, Duplicate};
ghost use Rattle.ra_base.specs.declared.handshake.Request.{Request};
ghost use Rattle.ra_base.specs.declared.key.Key.{Key};
ghost use Rattle.ra_base.specs.declared.key.Seat.{Seat};
ghost use Rattle.ra_keep.specs.declared.record.Record.{Record};
ghost use Rattle.ra_registry.specs.declared.past.Past.{Past};
ghost use Rattle.ra_registry.specs.declared.row.Row.{Row};
ghost use Rattle.ra_registry.specs.RegistryStates.{RegistryState, with_entry, with_entries};
ghost use Rattle.ra_registry.specs.RowChanges.{shorten, expire, is_open};
ghost use Rattle.ra_registry.specs.Rows.{same_key, epoch_of, stopped, start_row, row_of};
ghost use Rattle.ra_registry.specs.Admission.{admission_reasons, admission_refusal, key_of, can_reconnect};
ghost use Rattle.ra_registry.specs.Seats.{IsUnspent, admissions, endings, given, spent, unspent, admissions_of, admits, ends, seat_of, is_of};
ghost use Rattle.ra_registry.specs.Legal.{IsLegal};
ghost use Rattle.ra_registry.specs.Expiry.{expiry_of};

/// The first reason of one table: the reasons of the handshake, and then those of the registry.
pub fn verdict()
    ensures earlier { (reasons : List (Bool × Reason)) (registry : RegistryState) (ask : Request) (at : ℕ) (reason : Reason)
        → first_that reasons ≡ Some reason → first_that (reasons ++ admission_reasons registry ask at) ≡ Some reason }
    ensures later { (reasons : List (Bool × Reason)) (registry : RegistryState) (ask : Request) (at : ℕ)
        → first_that reasons ≡ None → first_that (reasons ++ admission_reasons registry ask at) ≡ admission_refusal registry ask at }
{}

/// A reconnection whose kind is known, and whose session can be reconnected once all lost rows are shortened, has no reason against it.
pub fn reconnection()
    ensures { (registry : RegistryState) (ask : Request) (at : ℕ) → is_some ask.kind ≡ true → ask.reconnection ≡ true
        → can_reconnect registry ask at ≡ true → admission_refusal registry ask at ≡ None }
{}

/// An entry of one session shortens the row of another one at most, and a row is shortened once.
pub fn others()
    ensures entry { (registry : RegistryState) (entry : Past) (key : Key) → same_key entry.key key ≡ false
        → (row_of (with_entry registry entry) key ≡ row_of registry key)
        ⊎ (row_of (with_entry registry entry) key ≡ option_map (shorten entry.at) (row_of registry key)) }
    ensures once { (at later : ℕ) (row : Row) → shorten later (shorten at row) ≡ shorten at row }
{}

/// At every place of a legal history there are no more Lost and Closed entries than Admitted ones, of each seat too.
pub fn seats()
    ensures all { (registry : RegistryState) → IsLegal registry → (n : ℕ) → n ≤ length registry.history
        → endings (take n registry.history) ≤ admissions (take n registry.history) }
    ensures each { (registry : RegistryState) (seat : Seat) → IsLegal registry → spent seat registry.history ≤ given seat registry.history }
    ensures left { (registry : RegistryState) (seat : Seat) → IsLegal registry → IsUnspent seat registry.history
        → endings registry.history < admissions registry.history }
{}

/// A seat that is not spent stays so until an end of this very seat.
pub fn unspent()
    ensures no_end { (history : List Past) (entry : Past) (seat : Seat) → ends entry.did ≡ false → IsUnspent seat history
        → IsUnspent seat (history ++ entry ∷ []) }
    ensures other_end { (history : List Past) (entry : Past) (seat : Seat) → is_of seat entry ≡ false → IsUnspent seat history
        → IsUnspent seat (history ++ entry ∷ []) }
{}

/// How many seats of a key and epoch are not spent, entry by entry: an Admitted entry adds its seat, the end of a seat that is not spent
/// takes it away, and each other entry, an expiry too, leaves the number.
pub fn counts()
    ensures admitted { (registry : RegistryState) (entry : Past) (seat : Seat) → IsLegal registry → admits entry.did ≡ true
        → unspent seat (registry.history ++ entry ∷ []) ≡ unspent seat registry.history + (if is_of seat entry then 1 else 0) }
    ensures ended { (history : List Past) (entry : Past) (seat : Seat) → ends entry.did ≡ true → IsUnspent (seat_of entry) history
        → unspent seat (history ++ entry ∷ []) + (if is_of seat entry then 1 else 0) ≡ unspent seat history }
    ensures other { (history : List Past) (entry : Past) (seat : Seat) → admits entry.did ≡ false → ends entry.did ≡ false
        → unspent seat (history ++ entry ∷ []) ≡ unspent seat history }
    ensures expired { (history : List Past) (at : ℕ) (keys : List Key) (seat : Seat)
        → unspent seat (history ++ map (expiry_of at) keys) ≡ unspent seat history }
    ensures some { (history : List Past) (seat : Seat) → IsUnspent seat history → 0 < unspent seat history }
    ensures left { (history : List Past) (seat : Seat) → 0 < unspent seat history → IsUnspent seat history }
{}

/// In a legal history each seat is given at most once.
pub fn given_once()
    ensures given { (registry : RegistryState) (seat : Seat) → IsLegal registry → given seat registry.history ≤ 1 }
    ensures unspent { (registry : RegistryState) (seat : Seat) → IsLegal registry → unspent seat registry.history ≤ 1 }
{}

/// A row never vanishes, and only an Admitted entry of its own key makes one.
pub fn presence()
    ensures stays { (registry : RegistryState) (entry : Past) (key : Key) → is_some (row_of registry key) ≡ true
        → is_some (row_of (with_entry registry entry) key) ≡ true }
    ensures made { (registry : RegistryState) (entry : Past) (key : Key) → is_some (row_of (with_entry registry entry) key) ≡ true
        → (is_some (row_of registry key) ≡ true) ⊎ ((admits entry.did ≡ true) × (same_key entry.key key ≡ true)) }
{}

/// Expiries close the rows of their keys, and leave all others. None makes a row, and none takes one away.
pub fn expiries()
    ensures there { (registry : RegistryState) (at : ℕ) (keys : List Key) (key : Key)
        → is_some (row_of (with_entries registry (map (expiry_of at) keys)) key) ≡ is_some (row_of registry key) }
    ensures rows { (registry : RegistryState) (at : ℕ) (keys : List Key) (key : Key)
        → row_of (with_entries registry (map (expiry_of at) keys)) key
        ≡ (if list_any (same_key key) keys then option_map expire (row_of registry key) else row_of registry key) }
{}

/// The epoch of a row is the greatest that was kept for its session, and one more for each Admitted entry of it.
pub fn epochs()
    ensures { (registry : RegistryState) (key : Key) → IsLegal registry
        → epoch_of (row_of registry key) ≡ epoch_of (start_row registry.start key) + admissions_of key registry.history }
{}

/// Each session of the start records has a row that is closed with `Stopped`, with no smaller epoch, and stays closed. A reconnection of it is refused as seen before, and a new request as a duplicate.
pub fn started()
    ensures row { (records : List Record) (key : Key) (i : ℕ) (d : Record) → i < length records
        → same_key (slice_index_or records i d).key key ≡ true
        → (epoch : ℕ) × (start_row records key ≡ Some (stopped epoch)) × ((slice_index_or records i d).epoch ≤ epoch) }
    ensures closed { (registry : RegistryState) (key : Key) → IsLegal registry → is_some (start_row registry.start key) ≡ true
        → (is_some (row_of registry key) ≡ true) × (is_open (row_of registry key) ≡ false) }
    ensures refused { (registry : RegistryState) (ask : Request) (at : ℕ) → IsLegal registry → is_some ask.kind ≡ true
        → is_some (start_row registry.start (key_of ask)) ≡ true
        → admission_refusal registry ask at ≡ Some (if ask.reconnection then SeenBefore else Duplicate) }
{}
