//! Values as bytes.
ghost use Rattle.std.specs.Prelude.{◌≡◌, ◌<◌, ◌^◌, ◌++◌, length, OnOk, OnErr};
ghost use Rattle.ra_values.specs.Reading.{Extends};
ghost use Rattle.ra_values.specs.View.{tree, trees};
ghost use Rattle.ra_values.specs.Spelling.{Fits, AllFit, levels, Appends, AppendsAll, AppendsPrefixed};
ghost use Rattle.ra_values.specs.ValueBytes.{value_bytes};

use crate::LEVELS;
use crate::memory::NoMemory;
use crate::number::{pattern, push_number};
use crate::value::Value;
use std::alloc::AllocError;

/// Writes a tag, a length, and the content.
fn put_prefixed(out: &mut Vec<u8>, tag: u8, content: &[u8]) -> Result<(), AllocError>
    requires { length content.now < 2 ^ 32 }
    ensures ok { OnOk result (AppendsPrefixed tag content.now out.old.items out.new.items) }
    ensures err { OnErr result (Extends out.old.items out.new.items) }
{
    out.push(tag)?;
    push_number(out, content.len() as u32)?;
    out.extend_from_slice(content)?;
    Ok(())
}

#[cycle(put)]
fn put_value(left: u8, value: &Value, out: &mut Vec<u8>) -> Result<(), AllocError>
    requires { Fits left (tree value.now) }
    ensures ok { OnOk result (Appends left (tree value.now) out.old.items out.new.items) }
    ensures err { OnErr result (Extends out.old.items out.new.items) }
{
    match value {
        Value::Undefined => {
            out.push(0)?;
            Ok(())
        }
        Value::Text { text } => put_prefixed(out, 1, text.as_str().as_bytes()),
        Value::Buffer { bytes } => put_prefixed(out, 2, bytes.as_slice()),
        Value::VsBuffer { bytes } => put_prefixed(out, 3, bytes.as_slice()),
        Value::Array { items } => {
            out.push(4)?;
            push_number(out, items.len() as u32)?;
            put_items(left - 1, items.as_slice(), out)
        }
        Value::Object { json } => put_prefixed(out, 5, json.as_str().as_bytes()),
        Value::Int { n } => {
            out.push(6)?;
            push_number(out, pattern(n))
        }
    }
}

#[cycle(put)]
fn put_items(left: u8, items: &[Value], out: &mut Vec<u8>) -> Result<(), AllocError>
    requires { AllFit left (trees items.now) }
    ensures ok { OnOk result (AppendsAll left (trees items.now) out.old.items out.new.items) }
    ensures err { OnErr result (Extends out.old.items out.new.items) }
{
    for item in items {
        put_value(left, item, out)?;
    }
    Ok(())
}

/// Writes the spelling of the value behind what is there. It needs a value that fits. Where memory runs out nothing is written.
pub fn append(value: &Value, to: &mut Vec<u8>) -> Result<(), NoMemory>
    requires { Fits levels (tree value.now) }
    ensures ok { OnOk result (to.new.items ≡ to.old.items ++ value_bytes (tree value.now)) }
    ensures err { OnErr result (to.new.items ≡ to.old.items) }
{
    let before = to.len();
    match put_value(LEVELS, value, to) {
        Ok(()) => Ok(()),
        Err(_) => {
            to.truncate(before);
            Err(NoMemory)
        }
    }
}
