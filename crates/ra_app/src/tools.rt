//! The tools that are shipped: `echo`, `length`, `fail` and `say`, on the channel `tools`.
ghost use Rattle.std.specs.Prelude.{◌≡◌, IfOk, codes};
ghost use Rattle.ra_values.specs.Tree.{object};
ghost use Rattle.ra_values.specs.Spelling.{Fits, levels};
ghost use Rattle.ra_values.specs.View.{tree};
ghost use Rattle.ra_ipc.specs.Messages.{success, error};
ghost use Rattle.ra_app.specs.Effects.{effect, DoneFits, quiet};
ghost use Rattle.ra_app.specs.ToolsTable.{length_of, told, tools};

use crate::app::{App, Done, Shout};
use ra_ipc::Answer;
use ra_values::{NoMemory, Text, Value};
use std::alloc::Global;

/// The shipped application.
#[derive(Clone, Copy, Debug)]
pub struct Tools;

/// An error with this JSON text.
fn failed(alloc: Global, json: &str) -> Result<Done, NoMemory>
    requires { Fits levels (object json.now) }
    ensures value { IfOk result (λ done. effect done ≡ quiet (error (object json.now))) }
    ensures fits { IfOk result DoneFits }
{
    let json = Text::of(alloc, json)?;
    let body = Value::Object { json };
    Ok(Done {
        answer: Answer::Error { body },
        fire: None,
    })
}

/// The argument itself.
fn echo(alloc: Global, arg: &Value) -> Result<Done, NoMemory>
    requires { Fits levels (tree arg.now) }
    ensures value { IfOk result (λ done. effect done ≡ quiet (success (tree arg.now))) }
    ensures fits { IfOk result DoneFits }
{
    let body = arg.copy(alloc)?;
    Ok(Done {
        answer: Answer::Success { body },
        fire: None,
    })
}

/// The number of bytes of a text.
fn length(alloc: Global, arg: &Value) -> Result<Done, NoMemory>
    requires { Fits levels (tree arg.now) }
    ensures value { IfOk result (λ done. effect done ≡ length_of (tree arg.now)) }
    ensures fits { IfOk result DoneFits }
{
    let Value::Text { text } = arg else {
        return failed(alloc, "{\"message\":\"not a text\",\"name\":\"Error\"}");
    };
    let n = (text.as_str().len() as u32).cast_signed();
    let body = Value::Int { n };
    Ok(Done {
        answer: Answer::Success { body },
        fire: None,
    })
}

/// The argument as an event of the name `said`.
fn say(alloc: Global, arg: &Value) -> Result<Done, NoMemory>
    requires { Fits levels (tree arg.now) }
    ensures value { IfOk result (λ done. effect done ≡ told (tree arg.now)) }
    ensures fits { IfOk result DoneFits }
{
    let event = Text::of(alloc, "said")?;
    let body = arg.copy(alloc)?;
    Ok(Done {
        answer: Answer::Success {
            body: Value::Undefined,
        },
        fire: Some(Shout { event, body }),
    })
}

impl App for Tools {
    ghost does = { λ _ _ name arg cancelled. tools name arg cancelled };

    fn call(
        &self,
        alloc: Global,
        _channel: &Text,
        name: &Text,
        arg: &Value,
        cancelled: bool,
    ) -> Result<Done, NoMemory> {
        if cancelled {
            return failed(alloc, "{\"message\":\"Canceled\",\"name\":\"Canceled\"}");
        }
        match name.as_str() {
            "echo" => echo(alloc, arg),
            "length" => length(alloc, arg),
            "fail" => failed(alloc, "{\"message\":\"failed\",\"name\":\"Error\"}"),
            "say" => say(alloc, arg),
            _ => failed(alloc, "{\"message\":\"unknown name\",\"name\":\"Error\"}"),
        }
    }
}
