//! What holds of the items of a text. Each function has an empty body: its clauses are what is proved.
ghost use Rattle.std.specs.Prelude.{◌≡◌, ◌≢◌, ℕ, ◌+◌, ◌-◌, true, false, List, [], ◌∷◌, ◌++◌, length, take, drop, Option, Some, None, Result, Ok, Err, ⊤};
ghost use Rattle.ra_model.specs.declared.frame.Frame.{Frame};
ghost use Rattle.ra_model.specs.Frames.{frame_bytes};
ghost use Rattle.ra_model.specs.FirstFrame.{first_frame, is_too_long, stated};
ghost use Rattle.ra_model.specs.Cutting.{rest_of, IsCarry};
ghost use Rattle.ra_upgrade.specs.declared.answer_head.AnswerFault.{AnswerFault};
ghost use Rattle.ra_upgrade.specs.declared.request_head.HeadFault.{HeadFault};
ghost use Rattle.ra_upgrade.specs.declared.request_head.Upgrade.{Upgrade};
ghost use Rattle.ra_upgrade.specs.AnswerHeads.{AnswerIs};
ghost use Rattle.ra_upgrade.specs.RequestHeads.{HeadIs};
ghost use Rattle.ra_items.specs.Heads.{Head, answered, length_alone, IsRequestOf, IsAnswerOf};
ghost use Rattle.ra_items.specs.Items.{Placed, frames_at, items, fresh_items};
ghost use Rattle.ra_items.specs.Items.Item.{HeadItem, FrameItem, TooLong};
ghost use Rattle.ra_items.specs.Readers.{Reader, new_reader, fed, items_ahead, HasRead};

/// The head of a request: an answer to a text gives the head, a front of the text has the same, a longer text too once the head is
/// answered, and all heads of a text give it the same items.
pub fn request_heads()
    ensures found { (text : List ℕ) (result : Result (Option (Upgrade × ℕ)) HeadFault) → HeadIs text result
        → (head : Head Upgrade HeadFault) × IsRequestOf text head × (answered head (length text) ≡ result) }
    ensures front { (text more : List ℕ) (head : Head Upgrade HeadFault) → IsRequestOf (text ++ more) head
        → IsRequestOf text head }
    ensures stays { (text more : List ℕ) (head : Head Upgrade HeadFault) → answered head (length text) ≢ Ok None
        → IsRequestOf text head → IsRequestOf (text ++ more) head }
    ensures one { (text : List ℕ) (head other : Head Upgrade HeadFault) → IsRequestOf text head
        → IsRequestOf text other
        → items head text ≡ items other text }
{}

/// The same of the head of an answer.
pub fn answer_heads()
    ensures found { (key text : List ℕ) (result : Result (Option ℕ) AnswerFault) → AnswerIs key text result
        → (head : Head ⊤ AnswerFault) × IsAnswerOf key text head × (length_alone (answered head (length text)) ≡ result) }
    ensures front { (key text more : List ℕ) (head : Head ⊤ AnswerFault) → IsAnswerOf key (text ++ more) head
        → IsAnswerOf key text head }
    ensures stays { (key text more : List ℕ) (head : Head ⊤ AnswerFault) → answered head (length text) ≢ Ok None
        → IsAnswerOf key text head → IsAnswerOf key (text ++ more) head }
    ensures one { (key text : List ℕ) (head other : Head ⊤ AnswerFault) → IsAnswerOf key text head
        → IsAnswerOf key text other
        → items head text ≡ items other text }
{}

/// The frames of a text that stands at a place: one after the other, and then none, or a header that states too long a body, behind
/// which nothing comes.
pub fn frames<A, E>()
    ensures step { (at : ℕ) (text : List ℕ) (f : Frame) (rest : List ℕ) → first_frame text ≡ Some (f, rest)
        → frames_at {A = A} {E = E} at text
        ≡ record { item = FrameItem f; place = at + length (frame_bytes f) } ∷ frames_at (at + length (frame_bytes f)) rest }
    ensures partial { (at : ℕ) (text : List ℕ) → first_frame text ≡ None → is_too_long text ≡ false
        → frames_at {A = A} {E = E} at text ≡ [] }
    ensures long { (at : ℕ) (text : List ℕ) → is_too_long text ≡ true
        → frames_at {A = A} {E = E} at text ≡ record { item = TooLong (stated text); place = at } ∷ [] }
{}

/// The items of a text are those of its front and the fresh ones of the piece that follows. These are all items as long as there is no
/// head; behind a head the frames of what was left and of the piece; and none behind a refused head or a header that states too
/// long a body.
pub fn pieces<A, E>()
    ensures grow { (head : Head A E) (text piece : List ℕ)
        → items head (text ++ piece) ≡ items head text ++ fresh_items head text piece }
    ensures all { (head : Head A E) (text piece : List ℕ) → answered head (length text) ≡ Ok None
        → fresh_items head text piece ≡ items head (text ++ piece) }
    ensures behind { (head : Head A E) (text piece : List ℕ) (says : A) (n : ℕ) (frames : List Frame) (rest : List ℕ)
        → answered head (length text) ≡ Ok (Some (says, n)) → IsCarry (drop n text) frames rest
        → (fresh_items head text piece ≡ frames_at (length text - length rest) (rest ++ piece))
        × (drop (length text - length rest) text ≡ rest) }
    ensures refused { (head : Head A E) (text piece : List ℕ) (fault : E) → answered head (length text) ≡ Err fault
        → fresh_items head text piece ≡ [] }
    ensures over { (head : Head A E) (text piece : List ℕ) (says : A) (n : ℕ)
        → answered head (length text) ≡ Ok (Some (says, n))
        → is_too_long (rest_of (drop n text)) ≡ true → fresh_items head text piece ≡ [] }
{}

/// What a reader has read of a text, and has not: at the start, with a piece more, behind the head, and behind a frame more. Where no
/// item is ahead, the fresh ones of a piece are those ahead of the reader with that piece. What follows a head may be left out.
pub fn reading<A, E>()
    ensures nothing { (head : Head A E) → HasRead head [] [] 0 new_reader }
    ensures piece { (head : Head A E) (text piece : List ℕ) (done : List (Placed A E)) (at : ℕ) (reader : Reader)
        → HasRead head text done at reader → HasRead head (text ++ piece) done at (fed piece reader) }
    ensures head { (head : Head A E) (text unread : List ℕ) (done : List (Placed A E)) (at : ℕ) (says : A) (n : ℕ)
        → HasRead head text done at (record { behind_head = false; unread = unread })
        → answered head (length unread) ≡ Ok (Some (says, n))
        → HasRead head text (done ++ record { item = HeadItem (Ok says); place = n } ∷ []) n
        (record { behind_head = true; unread = drop n unread }) }
    ensures frame { (head : Head A E) (text unread : List ℕ) (done : List (Placed A E)) (at : ℕ) (f : Frame) (rest : List ℕ)
        → HasRead head text done at (record { behind_head = true; unread = unread })
        → first_frame unread ≡ Some (f, rest)
        → HasRead head text (done ++ record { item = FrameItem f; place = at + length (frame_bytes f) } ∷ [])
        (at + length (frame_bytes f)) (record { behind_head = true; unread = rest }) }
    ensures front { (head : Head A E) (text unread : List ℕ) (says : A) (n : ℕ)
        → HasRead head text (record { item = HeadItem (Ok says); place = n } ∷ []) n (record { behind_head = true; unread = unread })
        → HasRead head (take n text) (record { item = HeadItem (Ok says); place = n } ∷ []) n (record { behind_head = true; unread = [] }) }
    ensures items { (head : Head A E) (text : List ℕ) (done : List (Placed A E)) (at : ℕ) (reader : Reader)
        → HasRead head text done at reader → items head text ≡ done ++ items_ahead head at reader }
    ensures fresh { (head : Head A E) (text piece : List ℕ) (done : List (Placed A E)) (at : ℕ) (reader : Reader)
        → HasRead head text done at reader → items_ahead head at reader ≡ []
        → fresh_items head text piece ≡ items_ahead head at (fed piece reader) }
{}
