//! The commands, read from the words of a command line.
ghost use Rattle.std.specs.Prelude.{◌≡◌, string_bytes, map};
ghost use Rattle.ra_script.specs.Words.{number_at, number_limit};
ghost use Rattle.ra_commands.specs.Programs.{one_word, three_words, soak_of, command_of};

use ra_script::number;

/// What the words of a command line ask for.
#[derive(Clone, Copy, Debug, PartialEq, Eq)]
pub enum Command {
    /// Prints what the bytes of a link are.
    Receive,
    /// Runs a script, and prints what its lines do.
    Replay,
    /// Runs a grand script, and prints what its lines do.
    Grand,
    /// Runs the script that is drawn from a number, and prints the sums. It has at most 100,000 steps.
    Soak { start: u64, steps: u32 },
}

/// The command of a word alone.
fn one_word(word: &str) -> Option<Command>
    ensures { result ≡ one_word word.now }
{
    match word {
        "receive" => Some(Command::Receive),
        "replay" => Some(Command::Replay),
        "grand" => Some(Command::Grand),
        _ => None,
    }
}

/// The command of `soak`'s two numbers.
fn soak_of(start: &str, steps: &str) -> Option<Command>
    ensures { result ≡ soak_of (number_at number_limit start.now) (number_at number_limit steps.now) }
{
    let Ok(start) = number(start.as_bytes()) else {
        return None;
    };
    let Ok(steps) = number(steps.as_bytes()) else {
        return None;
    };
    if steps > 100_000 {
        return None;
    }
    Some(Command::Soak {
        start,
        steps: steps as u32,
    })
}

/// The command of a word and two numbers.
fn three_words(word: &str, start: &str, steps: &str) -> Option<Command>
    ensures { result ≡ three_words word.now start.now steps.now }
{
    if word == "soak" {
        return soak_of(start, steps);
    }
    None
}

/// The command that the words name.
pub fn command_of(words: &[String]) -> Option<Command>
    ensures { result ≡ command_of (map string_bytes words.now) }
{
    match words {
        [word] => one_word(word.as_str()),
        [word, start, steps] => three_words(word.as_str(), start.as_str(), steps.as_str()),
        _ => None,
    }
}
