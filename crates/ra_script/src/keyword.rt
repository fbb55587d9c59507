//! The first words of lines.
ghost use Rattle.std.specs.Prelude.{◌≡◌};
ghost use Rattle.ra_script.specs.Keywords.{keyword_text, keyword_at};

/// The first word of a line.
#[derive(Clone, Copy, Debug, PartialEq, Eq)]
pub enum Keyword {
    Base,
    Link,
    At,
    Begin,
    Finish,
    Say,
    Control,
    Pause,
    Resume,
    Leave,
    Write,
    Read,
    Take,
    Tick,
    Lose,
    Cut,
    Drain,
}

const KEYWORDS: [Keyword; 17] = [
    Keyword::Base,
    Keyword::Link,
    Keyword::At,
    Keyword::Begin,
    Keyword::Finish,
    Keyword::Say,
    Keyword::Control,
    Keyword::Pause,
    Keyword::Resume,
    Keyword::Leave,
    Keyword::Write,
    Keyword::Read,
    Keyword::Take,
    Keyword::Tick,
    Keyword::Lose,
    Keyword::Cut,
    Keyword::Drain,
];

impl Keyword {
    /// The word itself.
    pub fn text(self) -> &'static str
        ensures { result.now ≡ keyword_text self }
    {
        match self {
            Keyword::Base => "base",
            Keyword::Link => "link",
            Keyword::At => "at",
            Keyword::Begin => "begin",
            Keyword::Finish => "finish",
            Keyword::Say => "say",
            Keyword::Control => "control",
            Keyword::Pause => "pause",
            Keyword::Resume => "resume",
            Keyword::Leave => "leave",
            Keyword::Write => "write",
            Keyword::Read => "read",
            Keyword::Take => "take",
            Keyword::Tick => "tick",
            Keyword::Lose => "lose",
            Keyword::Cut => "cut",
            Keyword::Drain => "drain",
        }
    }
}

/// The keyword that a word is.
#[tactic(auto, unfolding(crate::specs::Keywords::keyword_at))]
pub fn find_keyword(word: &[u8]) -> Option<Keyword>
    ensures { result ≡ keyword_at word.now }
{
    KEYWORDS
        .iter()
        .copied()
        .find(|keyword| keyword.text().as_bytes() == word)
}
