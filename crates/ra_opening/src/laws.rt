//! What holds of the opening of a text. Each function has an empty body: its clauses are what is proved.
ghost use Rattle.std.specs.Prelude.{◌≡◌, ℕ, List, [], ◌++◌};
ghost use Rattle.ra_base.specs.declared.handshake.Request.{Request};
ghost use Rattle.ra_items.specs.Heads.{Head, IsRequestOf};
ghost use Rattle.ra_items.specs.Items.{fresh_items};
ghost use Rattle.ra_upgrade.specs.declared.request_head.HeadFault.{HeadFault};
ghost use Rattle.ra_upgrade.specs.declared.request_head.Upgrade.{Upgrade};
ghost use Rattle.ra_opening.specs.declared.ends.OpeningEnd.{OpeningEnd};
ghost use Rattle.ra_opening.specs.Comes.{IsPart};
ghost use Rattle.ra_opening.specs.Openings.{Grounds, items_done, opened};
ghost use Rattle.ra_opening.specs.Openings.Stage.{Asked, Over};
ghost use Rattle.ra_opening.specs.Stands.{Stands, new_opening};

/// The opening of a text goes on with the fresh items of a piece. What it wrote stays, and so does a request, or the end.
/// All heads of a text give it the same opening.
pub fn openings()
    ensures grow { (grounds : Grounds) (head : Head Upgrade HeadFault) (text piece : List ℕ)
        → opened grounds head (text ++ piece)
        ≡ items_done grounds (fresh_items head text piece) (opened grounds head text) }
    ensures asked { (grounds : Grounds) (head : Head Upgrade HeadFault) (text more : List ℕ) (request : Request)
        (place : ℕ)
        → (opened grounds head text).stage ≡ Asked request place
        → opened grounds head (text ++ more) ≡ opened grounds head text }
    ensures over { (grounds : Grounds) (head : Head Upgrade HeadFault) (text more : List ℕ) (end : OpeningEnd)
        → (opened grounds head text).stage ≡ Over end
        → opened grounds head (text ++ more) ≡ opened grounds head text }
    ensures written { (grounds : Grounds) (head : Head Upgrade HeadFault) (text more : List ℕ)
        → IsPart (opened grounds head text) (opened grounds head (text ++ more)) }
    ensures one { (grounds : Grounds) (text : List ℕ) (head other : Head Upgrade HeadFault)
        → IsRequestOf text head → IsRequestOf text other → opened grounds head text ≡ opened grounds other text }
{}

/// A new opening stands before the first byte of a link.
pub fn start()
    ensures { (grounds : Grounds) (head : Head Upgrade HeadFault) (text : List ℕ) (next : ℕ → List ℕ)
        → IsRequestOf text head
        → ((n : ℕ) → next n ≡ grounds.draw n) → Stands grounds head [] [] next new_opening [] }
{}
