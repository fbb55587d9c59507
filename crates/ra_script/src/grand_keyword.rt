//! The first words of lines of a grand script.
ghost use Rattle.std.specs.Prelude.{◌≡◌};
ghost use Rattle.ra_script.specs.GrandKeywords.{grand_keyword_text, grand_keyword_at};

/// The first word of a line of a grand script.
#[derive(Clone, Copy, Debug, PartialEq, Eq)]
pub enum GrandKeyword {
    At,
    Client,
    Step,
    Linked,
    NoLink,
    Up,
    Idle,
    Down,
    Frame,
    Drain,
    Cut,
    Gone,
    Lost,
    Sweep,
    Work,
    Call,
    Text,
    Listen,
    Cancel,
    Dispose,
    Say,
    Stop,
}

const GRAND_KEYWORDS: [GrandKeyword; 22] = [
    GrandKeyword::At,
    GrandKeyword::Client,
    GrandKeyword::Step,
    GrandKeyword::Linked,
    GrandKeyword::NoLink,
    GrandKeyword::Up,
    GrandKeyword::Idle,
    GrandKeyword::Down,
    GrandKeyword::Frame,
    GrandKeyword::Drain,
    GrandKeyword::Cut,
    GrandKeyword::Gone,
    GrandKeyword::Lost,
    GrandKeyword::Sweep,
    GrandKeyword::Work,
    GrandKeyword::Call,
    GrandKeyword::Text,
    GrandKeyword::Listen,
    GrandKeyword::Cancel,
    GrandKeyword::Dispose,
    GrandKeyword::Say,
    GrandKeyword::Stop,
];

impl GrandKeyword {
    /// The word itself.
    fn text(self) -> &'static str
        ensures { result.now ≡ grand_keyword_text self }
    {
        match self {
            GrandKeyword::At => "at",
            GrandKeyword::Client => "client",
            GrandKeyword::Step => "step",
            GrandKeyword::Linked => "linked",
            GrandKeyword::NoLink => "nolink",
            GrandKeyword::Up => "up",
            GrandKeyword::Idle => "idle",
            GrandKeyword::Down => "down",
            GrandKeyword::Frame => "frame",
            GrandKeyword::Drain => "drain",
            GrandKeyword::Cut => "cut",
            GrandKeyword::Gone => "gone",
            GrandKeyword::Lost => "lost",
            GrandKeyword::Sweep => "sweep",
            GrandKeyword::Work => "work",
            GrandKeyword::Call => "call",
            GrandKeyword::Text => "text",
            GrandKeyword::Listen => "listen",
            GrandKeyword::Cancel => "cancel",
            GrandKeyword::Dispose => "dispose",
            GrandKeyword::Say => "say",
            GrandKeyword::Stop => "stop",
        }
    }
}

/// The keyword that a word is.
#[tactic(auto, unfolding(crate::specs::GrandKeywords::grand_keyword_at))]
pub fn find_grand_keyword(word: &[u8]) -> Option<GrandKeyword>
    ensures { result ≡ grand_keyword_at word.now }
{
    GRAND_KEYWORDS
        .iter()
        .copied()
        .find(|keyword| keyword.text().as_bytes() == word)
}
