//! The running reader: it takes what comes on a link in pieces, and gives its items one after another.
ghost use Rattle.std.specs.Prelude.{◌≡◌, ◌≢◌, ◌≤◌, ℕ, length, drop, true, false, List, [], Some, None, Ok, Err, IfOk, IfErr, OnOk, OnErr, MatchOption, MatchBool, ⊤};
ghost use Rattle.ra_model.specs.FirstFrame.{first_frame};
ghost use Rattle.ra_frame.specs.Fronts.{IsPartial, IsTooLong, IsAhead, states_above};
ghost use Rattle.ra_upgrade.specs.declared.answer_head.AnswerFault.{AnswerFault};
ghost use Rattle.ra_upgrade.specs.declared.answer_head.AnswerFault.TheVariants as answer_faults;
ghost use Rattle.ra_upgrade.specs.declared.request_head.HeadFault.{HeadFault};
ghost use Rattle.ra_upgrade.specs.declared.request_head.HeadFault.TheVariants as head_faults;
ghost use Rattle.ra_upgrade.specs.declared.request_head.Upgrade.{Upgrade};
ghost use Rattle.ra_upgrade.specs.AnswerHeads.{AnswerIs};
ghost use Rattle.ra_upgrade.specs.RequestHeads.{HeadIs};
ghost use Rattle.ra_items.specs.Heads.{Head, IsRequestOf, IsAnswerOf};
ghost use Rattle.ra_items.specs.Items.{Placed};
ghost use Rattle.ra_items.specs.Readers.{new_reader, fed, behind, HasRead};
ghost use Rattle.ra_items.specs.Reads.{ReadsRequest, ReadsAnswer, ReadsFrame};

use ra_base::NoMemory;
use ra_frame::{FrameFault, FrameReader};
use ra_model::Frame;
use ra_upgrade::{AnswerFault, HeadFault, Upgrade, read_answer, read_head};
use std::alloc::Global;
use std::marker::Model;

/// What came on a link and is unread, and whether its head was read. A server reads the head by `next_request`, and a client by
/// `next_answer`; behind it both read frames.
#[derive(Drop)]
pub struct ItemReader {
    behind_head: bool,
    unread: FrameReader,
}

impl Model for ItemReader {
    ghost use Rattle.ra_items.specs.Readers.{Reader};

    ghost Value = { Reader };

    ghost view = { λ r. record { behind_head = r.behind_head; unread = r.unread } };
}

impl ItemReader {
    /// A reader of a link on which nothing came. It takes no memory.
    pub fn new(alloc: Global) -> ItemReader
        ensures { result ≡ new_reader }
    {
        ItemReader {
            behind_head: false,
            unread: FrameReader::new(alloc),
        }
    }

    /// Takes the next piece, or nothing where there is no memory.
    pub fn feed(&mut self, piece: &[u8]) -> Result<(), NoMemory>
        ensures ok { OnOk result (self.new ≡ fed piece.now self.old) }
        ensures err { OnErr result (self.new ≡ self.old) }
    {
        self.unread.feed(piece)
    }

    /// Whether the head was read.
    pub fn is_behind_head(&self) -> bool
        ensures { result ≡ self.now.behind_head }
    {
        self.behind_head
    }

    /// The unread bytes.
    pub fn unread(&self) -> &[u8]
        ensures { result.now ≡ self.now.unread }
    {
        self.unread.unread()
    }

    /// Discards what is unread.
    pub fn clear(&mut self)
        ensures { self.new ≡ record { behind_head = self.old.behind_head; unread = [] } }
    {
        self.unread.clear();
    }

    /// The type of the next frame, and how many bytes it has, where a whole one is there. It takes no memory.
    pub fn ahead(&self) -> Option<(u8, usize)>
        ensures { IsAhead self.now.unread result }
    {
        self.unread.ahead()
    }

    /// Whether the next header of a frame states a body longer than this limit, and within that of a frame. It takes no memory.
    pub fn states_above(&self, limit: u32) -> bool
        ensures { result ≡ states_above limit self.now.unread }
    {
        self.unread.states_above(limit)
    }

    /// The first `len` unread bytes count as read. It takes no memory.
    pub fn skip(&mut self, len: usize)
        requires { len ≤ length self.old.unread }
        ensures { self.new ≡ record { behind_head = self.old.behind_head; unread = drop len self.old.unread } }
    {
        self.unread.skip(len);
    }

    /// The next item, where it is an upgrade request. `None` asks for more bytes. A fault leaves the unread bytes.
    pub fn next_request(&mut self, alloc: Global) -> Result<Option<Upgrade>, HeadFault>
        requires { self.old.behind_head ≡ false }
        ensures found { IfOk result (λ found. MatchOption found (HeadIs self.old.unread (Ok None) × (self.new ≡ self.old))
            (λ upgrade. (n : ℕ) × HeadIs self.old.unread (Ok (Some (upgrade, n))) × (self.new ≡ behind n self.old))) }
        ensures refused { IfErr result (λ fault. fault ≢ head_faults.NoMemory → HeadIs self.old.unread (Err fault)) }
        ensures err { OnErr result (self.new ≡ self.old) }
        ensures read { (head : Head Upgrade HeadFault) (text : List ℕ) (done : List (Placed Upgrade HeadFault)) (at : ℕ)
            → IsRequestOf text head → HasRead head text done at self.old
            → ReadsRequest head text done self.new result }
    {
        match read_head(alloc, self.unread.unread()) {
            Ok(Some((upgrade, len))) => {
                self.unread.skip(len);
                self.behind_head = true;
                Ok(Some(upgrade))
            }
            Ok(None) => Ok(None),
            Err(fault) => Err(fault),
        }
    }

    /// The next item, where it is an answer that accepts the request with that key. `false` asks for more bytes. A fault leaves the
    /// unread bytes.
    pub fn next_answer(&mut self, alloc: Global, key: [u8; 16]) -> Result<bool, AnswerFault>
        requires { self.old.behind_head ≡ false }
        ensures found { IfOk result (λ found. MatchBool found
            ((n : ℕ) × AnswerIs key self.old.unread (Ok (Some n)) × (self.new ≡ behind n self.old))
            (AnswerIs key self.old.unread (Ok None) × (self.new ≡ self.old))) }
        ensures refused { IfErr result (λ fault. fault ≢ answer_faults.NoMemory → AnswerIs key self.old.unread (Err fault)) }
        ensures err { OnErr result (self.new ≡ self.old) }
        ensures read { (head : Head ⊤ AnswerFault) (text : List ℕ) (done : List (Placed ⊤ AnswerFault)) (at : ℕ)
            → IsAnswerOf key text head → HasRead head text done at self.old
            → ReadsAnswer head text done self.new result }
    {
        match read_answer(alloc, key, self.unread.unread()) {
            Ok(Some(size)) => {
                self.unread.skip(size);
                self.behind_head = true;
                Ok(true)
            }
            Ok(None) => Ok(false),
            Err(fault) => Err(fault),
        }
    }

    /// The next frame behind the head, where a whole one is there. A fault leaves the unread bytes, and `TooLong` stays.
    pub fn next_frame(&mut self, alloc: Global) -> Result<Option<Frame>, FrameFault>
        requires { self.old.behind_head ≡ true }
        ensures found { IfOk result (λ found. MatchOption found (IsPartial self.old.unread × (self.new ≡ self.old))
            (λ f. first_frame self.old.unread ≡ Some (f, self.new.unread))) }
        ensures behind { self.new.behind_head ≡ true }
        ensures stands { (n : ℕ) → IsTooLong self.old.unread n → result ≡ Err (FrameFault.TooLong n) }
        ensures too_long { IfErr result (λ fault. (n : ℕ) → fault ≡ FrameFault.TooLong n → IsTooLong self.old.unread n) }
        ensures err { OnErr result (self.new ≡ self.old) }
        ensures of_request { (head : Head Upgrade HeadFault) (text : List ℕ) (done : List (Placed Upgrade HeadFault)) (at : ℕ)
            → HasRead head text done at self.old → ReadsFrame head text done at self.new result }
        ensures of_answer { (head : Head ⊤ AnswerFault) (text : List ℕ) (done : List (Placed ⊤ AnswerFault)) (at : ℕ)
            → HasRead head text done at self.old → ReadsFrame head text done at self.new result }
    {
        self.unread.next(alloc)
    }
}
