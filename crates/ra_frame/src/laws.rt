//! What the frames that are read from pieces have to do with the bytes.
ghost use Rattle.std.specs.Prelude.{ℕ, List, ◌++◌};
ghost use Rattle.ra_model.specs.declared.frame.Frame.{Frame};
ghost use Rattle.ra_model.specs.Frames.{HoldsNoFrame, IsCut};
ghost use Rattle.ra_frame.specs.Fronts.{IsTooLong};
ghost use Rattle.ra_frame.specs.Readings.{HasRead, IsKept};

/// Over any pieces the frames taken and what is unread are the bytes fed, and once no frame is left they are their cut.
/// A header that states too long a body stands, whatever comes behind it.
pub fn any_pieces()
    ensures kept { (text : List ℕ) (frames : List Frame) (unread : List ℕ) → HasRead text frames unread → IsKept text frames unread }
    ensures cut { (text : List ℕ) (frames : List Frame) (unread : List ℕ) → HasRead text frames unread → HoldsNoFrame unread → IsCut text frames unread }
    ensures too_long { (unread piece : List ℕ) (n : ℕ) → IsTooLong unread n → IsTooLong (unread ++ piece) n }
{}
