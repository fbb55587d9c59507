//! What an application answers to a call.
ghost use Rattle.std.specs.Prelude.{◌≡◌, codes, IfOk};
ghost use Rattle.ra_values.specs.Tree.{object};
ghost use Rattle.ra_values.specs.Spelling.{Fits, levels};
ghost use Rattle.ra_values.specs.View.{tree};
ghost use Rattle.ra_ipc.specs.Messages.{error};
ghost use Rattle.ra_ipc.specs.View.{reply};
ghost use Rattle.ra_app.specs.Effects.{effect, AnswerFits, DoneFits};

use ra_ipc::Answer;
use ra_values::{NoMemory, Text, Value};
use std::alloc::Global;

/// An event that an answer fires on the channel of its call.
#[derive(Debug, Drop)]
pub struct Shout {
    pub event: Text,
    pub body: Value,
}

/// What is done for a call.
#[derive(Debug, Drop)]
pub struct Done {
    pub answer: Answer,
    pub fire: Option<Shout>,
}

/// An application: what it does for a call is one function of the call and of itself.
pub trait App {
    ghost use Rattle.std.specs.Prelude.{List, ℕ, Bool};
    ghost use Rattle.ra_values.specs.Tree.{Tree};
    ghost use Rattle.ra_app.specs.Effects.{Effect};

    ghost does: { Self → List ℕ → List ℕ → Tree → Bool → Effect };

    /// Answers a call of the name on the channel. Whether it was cancelled before it came is told. It needs an argument that fits,
    /// and what it gives fits.
    fn call(
        &self,
        alloc: Global,
        channel: &Text,
        name: &Text,
        arg: &Value,
        cancelled: bool,
    ) -> Result<Done, NoMemory>
        requires { Fits levels (tree arg.now) }
        ensures value { IfOk result (λ done. effect done ≡ does self.now channel.now name.now (tree arg.now) cancelled) }
        ensures fits { IfOk result DoneFits };
}

/// The answer that stands in for one that is too large to be sent.
pub fn too_large(alloc: Global) -> Result<Answer, NoMemory>
    ensures value { IfOk result (λ answer. reply answer ≡ error (object (codes "{\"message\":\"answer too large\",\"name\":\"Error\"}"))) }
    ensures fits { IfOk result AnswerFits }
{
    let json = Text::of(
        alloc,
        "{\"message\":\"answer too large\",\"name\":\"Error\"}",
    )?;
    let body = Value::Object { json };
    Ok(Answer::Error { body })
}
