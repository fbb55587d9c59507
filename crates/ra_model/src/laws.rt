//! What holds of frames, of the queue of an endpoint, of every view of two endpoints and of every run of them.
//! Each function has an empty body: its clauses are what is proved.
ghost use Rattle.std.specs.Prelude.{◌≡◌, ℕ, suc, ◌+◌, ◌*◌, ◌<◌, ◌≤◌, Bool, Some, None, true, false, List, [], ◌∷◌, ◌++◌, length, map, drop};
ghost use Rattle.ra_model.specs.Frames.{IsFrame, IsBytes, IsCut, Begins, HoldsNoFrame, frame_bytes, joined, last_id};
ghost use Rattle.ra_model.specs.FirstFrame.{first_frame, is_too_long};
ghost use Rattle.ra_model.specs.Cutting.{frames_of, rest_of, places_behind, IsCarry};
ghost use Rattle.ra_model.specs.declared.frame.Frame.{Frame};
ghost use Rattle.ra_model.specs.Endpoints.{Endpoint, is_ended, SaidMessage, sent, owed};
ghost use Rattle.ra_model.specs.Calls.{rewritten, begin, finish, say, control, ask_pause, ask_resume, feed, wrote, lose, leave, tick};
ghost use Rattle.ra_model.specs.Taking.{next_frame, take_frame, delivery};
ghost use Rattle.ra_model.specs.GoesOn.{GoesOn};
ghost use Rattle.ra_model.specs.Views.{View, WorldView, InEveryView, IsEmptyAway, new_peer};
ghost use Rattle.ra_model.specs.EndpointStates.{EndpointState, StandsFor, IsOrdered, behind, entry_written};
ghost use Rattle.ra_model.specs.Events.{run, after};
ghost use Rattle.ra_model.specs.Links.{other};
ghost use Rattle.ra_model.specs.Worlds.{new_world, peer};
ghost use Rattle.ra_model.specs.HeardPlaces.{AreHeardPlaces, message_places, deliveries};
ghost use Rattle.ra_model.specs.Acks.{greatest, run_acks};
ghost use Rattle.ra_model.specs.Refusals.{take_refusal};
ghost use Rattle.ra_model.specs.Conversations.{conversation_of, conversed, run_steps, new_conversation};
ghost use Rattle.ra_base.specs.declared.event.Side.{Side};
ghost use Rattle.ra_base.specs.declared.event.Event.{Event};
ghost use Rattle.ra_model.specs.Pairs.{InEveryRun, AreHeardInOrder, AreKeptUntilHeard, AreWrittenHonestly, AreReadInFrames, IsLater, HearsInOrder, KeepsUnheard, WritesHonestly, ReadsInFrames, IsHonest, messages};

use crate::session::Up;

/// A text of bytes is cut into frames in one way, and piece by piece in the same way.
pub fn one_cut()
    ensures front { (f g : Frame) (x y : List ℕ) → IsFrame f → IsFrame g
        → frame_bytes f ++ x ≡ frame_bytes g ++ y → (f ≡ g) × (x ≡ y) }
    ensures unique { (text : List ℕ) (fs gs : List Frame) (r s : List ℕ) → IsCut text fs r
        → IsCut text gs s → (fs ≡ gs) × (r ≡ s) }
    ensures whole { (text : List ℕ) → IsBytes text
        → (frames : List Frame) × (rest : List ℕ) × IsCut text frames rest }
    ensures next_piece { (text piece : List ℕ) (fs gs : List Frame) (r s : List ℕ) → IsCut text fs r
        → IsCut (r ++ piece) gs s → IsCut (text ++ piece) (fs ++ gs) s }
    ensures first { (text : List ℕ) (f : Frame) (rest : List ℕ) → IsBytes text
        → first_frame text ≡ Some (f, rest) → Begins text f rest }
    ensures none { (text : List ℕ) → first_frame text ≡ None → HoldsNoFrame text }
    ensures too_long { (text more : List ℕ) → is_too_long text ≡ true → HoldsNoFrame (text ++ more) }
{}

/// The cut of a text is computed frame by frame, and goes on as the text does.
pub fn cutting()
    ensures is_cut { (text : List ℕ) → IsBytes text → IsCut text (frames_of text) (rest_of text) }
    ensures step { (text : List ℕ) (f : Frame) (rest : List ℕ) → first_frame text ≡ Some (f, rest)
        → (frames_of text ≡ f ∷ frames_of rest) × (rest_of text ≡ rest_of rest) }
    ensures none { (text : List ℕ) → first_frame text ≡ None → (frames_of text ≡ []) × (rest_of text ≡ text) }
    ensures more { (text more : List ℕ)
        → (frames_of (text ++ more) ≡ frames_of text ++ frames_of (rest_of text ++ more))
        × (rest_of (text ++ more) ≡ rest_of (rest_of text ++ more)) }
    ensures rest { (text : List ℕ) → first_frame (rest_of text) ≡ None }
    ensures left { (text : List ℕ)
        → (length text ≡ length (joined (frames_of text)) + length (rest_of text))
        × (drop (length (joined (frames_of text))) text ≡ rest_of text) }
    ensures places { (at : ℕ) (fs gs : List Frame)
        → places_behind at (fs ++ gs) ≡ places_behind at fs ++ places_behind (at + length (joined fs)) gs }
    ensures found { (text : List ℕ) (f : Frame) (rest : List ℕ) → first_frame text ≡ Some (f, rest)
        → (length (frame_bytes f) ≤ length text) × (rest ≡ drop (length (frame_bytes f)) text) }
    ensures later { (text more : List ℕ) (f : Frame) (rest : List ℕ)
        → first_frame text ≡ Some (f, rest) → first_frame (text ++ more) ≡ Some (f, rest ++ more) }
{}

/// How many frames a text has. Where none was whole, a piece makes at most one more than its bytes have room for.
pub fn few_frames()
    ensures all { (text : List ℕ) → 13 * length (frames_of text) ≤ length text }
    ensures more { (text piece : List ℕ) (f : Frame) (frames : List Frame) → first_frame text ≡ None
        → frames_of (text ++ piece) ≡ f ∷ frames → 13 * length frames < length piece }
{}

/// What a reader has read of a text, and has not, over pieces.
pub fn carry()
    ensures nothing { (text : List ℕ) → first_frame text ≡ None → is_too_long text ≡ false
        → IsCarry text [] text }
    ensures step { (text : List ℕ) (f : Frame) (rest : List ℕ) (frames : List Frame) (left : List ℕ)
        → first_frame text ≡ Some (f, rest) → IsCarry rest frames left → IsCarry text (f ∷ frames) left }
    ensures more { (text piece : List ℕ) (frames more : List Frame) (rest left : List ℕ)
        → IsCarry text frames rest → IsCarry (rest ++ piece) more left
        → IsCarry (text ++ piece) (frames ++ more) left }
    ensures cut { (text : List ℕ) (frames : List Frame) (rest : List ℕ) → IsBytes text
        → IsCarry text frames rest → IsCut text frames rest }
{}

/// How the queue of what is not acknowledged changes.
pub fn queue()
    ensures ordered { (s : EndpointState) (e : Endpoint) → StandsFor s e
        → s.acknowledged + length s.queue ≡ s.sent → IsOrdered e }
    ensures said { (e : Endpoint) (m : SaidMessage) → IsOrdered e
        → owed (record e { said = e.said ++ m ∷ [] }) ≡ owed e ++ record { id = suc (sent e); ack = m.ack; body = m.body; written = m.written } ∷ [] }
    ensures acknowledged { (e : Endpoint) (upto : ℕ) → IsOrdered e → e.acknowledged ≤ upto
        → upto ≤ sent e → owed (record e { acknowledged = upto }) ≡ behind upto (owed e) }
    ensures rewritten { (e : Endpoint) (now : ℕ)
        → owed (record e { said = rewritten now e }) ≡ map (entry_written now) (owed e) }
{}

/// The messages that an endpoint hands up stand at the heard places of the frames that come, and these are fixed.
pub fn hearing()
    ensures places { (now : ℕ) (frames : List Frame) (e : Endpoint) → is_ended e.phase ≡ false
        → AreHeardPlaces frames e.received (message_places 0 (deliveries now frames e)) }
    ensures unique { (frames : List Frame) (last : ℕ) (ps qs : List ℕ)
        → AreHeardPlaces frames last ps → AreHeardPlaces frames last qs → ps ≡ qs }
{}

/// A frame that comes ends an endpoint where it hands up the end, and leaving ends it. No other call does.
pub fn ending()
    ensures begin { (epoch : ℕ) (chunk : List ℕ) (now : ℕ) → GoesOn (begin epoch chunk now) }
    ensures finish { (now : ℕ) → GoesOn (finish now) }
    ensures say { (body : List ℕ) (now : ℕ) → GoesOn (say body now) }
    ensures control { (body : List ℕ) → GoesOn (control body) }
    ensures pause { GoesOn ask_pause }
    ensures resume { GoesOn ask_resume }
    ensures feed { (epoch : ℕ) (piece : List ℕ) (now : ℕ) → GoesOn (feed epoch piece now) }
    ensures wrote { (n : ℕ) → GoesOn (wrote n) }
    ensures lose { (epoch : ℕ) → GoesOn (lose epoch) }
    ensures tick { (now : ℕ) → GoesOn (tick now) }
    ensures take { (now : ℕ) (e : Endpoint) → (delivery e ≡ Some Up.Ended → ⊥)
        → is_ended e.phase ≡ false → is_ended (take_frame now e).phase ≡ false }
    ensures take_ends { (now : ℕ) (e : Endpoint) → delivery e ≡ Some Up.Ended
        → is_ended (take_frame now e).phase ≡ true }
    ensures leave_ends { (e : Endpoint) → is_ended (leave e).phase ≡ true }
{}

/// What a view of two endpoints says of the messages from the endpoint at its side to the other, and of what that endpoint wrote
/// and read. A view from the other side is the same view, and every moment of every run has one.
pub fn view()
    ensures heard { InEveryView (λ start s i j p o links. HearsInOrder start p o) }
    ensures kept { InEveryView (λ start s i j p o links. KeepsUnheard start p o) }
    ensures written { InEveryView (λ start s i j p o links. WritesHonestly start (other s) i p links) }
    ensures read { InEveryView (λ start s i j p o links. ReadsInFrames s i p links) }

    ensures next { InEveryView (λ start s i j p o links. (f : Frame) (rest : List ℕ)
        → next_frame p.endpoint ≡ Some (f, rest)
        → IsHonest start (messages o.endpoint) (start + length o.heard) f) }
    ensures never_too_long { InEveryView (λ start s i j p o links. take_refusal p.endpoint ≡ None) }
    ensures away { InEveryView (λ start s i j p o links. IsEmptyAway p.endpoint) }
    ensures turned { InEveryView (λ start s i j p o links. View start (other s) j i o p links) }

    ensures begins { (base now later : ℕ) (keeps keeps_too : Bool) (s : Side) → base ≤ last_id
        → View base s 0 0 (new_peer base now keeps) (new_peer base later keeps_too) [] }
    ensures every_run { InEveryRun WorldView }
{}

/// Whatever is said, written, read in any pieces, cut and begun anew: each endpoint has handed up the first messages of its peer,
/// each once and in order, and keeps every message that its peer has not acknowledged.
pub fn pair()
    ensures heard { InEveryRun AreHeardInOrder }
    ensures kept { InEveryRun AreKeptUntilHeard }
    ensures written { InEveryRun AreWrittenHonestly }
    ensures read { InEveryRun AreReadInFrames }
    ensures never_too_long { (base : ℕ) (events : List Event) (side : Side) → base ≤ last_id
        → take_refusal (peer side (run events (new_world base))).endpoint ≡ None }
    ensures acknowledged { (base : ℕ) (events : List Event) (side : Side)
        → (peer side (run events (new_world base))).endpoint.acknowledged ≡ greatest base (run_acks side events (new_world base)) }
    ensures conversation { (base : ℕ) (events : List Event) → base ≤ last_id
        → conversation_of (run events (new_world base)) ≡ conversed (run_steps events (new_world base)) new_conversation }
    ensures rising { (base : ℕ) (events later : List Event) (side : Side)
        → IsLater (peer side (run events (new_world base))) (peer side (run (events ++ later) (new_world base))) }
{}
