//! The lines of an audit, each added to a text.
ghost use Rattle.std.specs.Prelude.{◌≡◌, ◌++◌, OnOk, decimal};
ghost use Rattle.ra_audit.specs.Audits.{kind_name, record_line, end_line, wrong_line};

use itoa::Buffer;
use ra_base::{Kind, NoMemory};
use ra_keep::Record;

fn push_decimal(text: &mut Vec<u8>, n: u64) -> Result<(), NoMemory>
    ensures { OnOk result (text.new.items ≡ text.old.items ++ decimal n) }
{
    let mut buffer = Buffer::new();
    text.extend_from_slice(buffer.format(n).as_bytes())?;
    Ok(())
}

fn push_kind(text: &mut Vec<u8>, kind: Kind) -> Result<(), NoMemory>
    ensures { OnOk result (text.new.items ≡ text.old.items ++ kind_name kind) }
{
    match kind {
        Kind::Management => text.extend_from_slice(b"management")?,
        Kind::ExtensionHost => text.extend_from_slice(b"host")?,
        Kind::Tunnel => text.extend_from_slice(b"tunnel")?,
    }
    Ok(())
}

/// Adds `N KIND TOKEN EPOCH AT`.
pub fn push_record(text: &mut Vec<u8>, n: u64, kept: &Record) -> Result<(), NoMemory>
    ensures { OnOk result (text.new.items ≡ text.old.items ++ record_line n kept.now) }
{
    push_decimal(text, n)?;
    text.push(b' ')?;
    push_kind(text, kept.key.kind)?;
    text.push(b' ')?;
    text.extend_from_slice(kept.key.token.as_text().as_bytes())?;
    text.push(b' ')?;
    push_decimal(text, kept.epoch)?;
    text.push(b' ')?;
    push_decimal(text, kept.at)?;
    text.push(b'\n')?;
    Ok(())
}

/// Adds `end records=N`.
pub fn push_end(text: &mut Vec<u8>, n: u64) -> Result<(), NoMemory>
    ensures { OnOk result (text.new.items ≡ text.old.items ++ end_line n) }
{
    text.extend_from_slice(b"end records=")?;
    push_decimal(text, n)?;
    text.push(b'\n')?;
    Ok(())
}

/// Adds `record N: epoch EPOCH, expected DUE`.
pub fn push_wrong(text: &mut Vec<u8>, n: u64, epoch: u64, due: u64) -> Result<(), NoMemory>
    ensures { OnOk result (text.new.items ≡ text.old.items ++ wrong_line n epoch due) }
{
    text.extend_from_slice(b"record ")?;
    push_decimal(text, n)?;
    text.extend_from_slice(b": epoch ")?;
    push_decimal(text, epoch)?;
    text.extend_from_slice(b", expected ")?;
    push_decimal(text, due)?;
    text.push(b'\n')?;
    Ok(())
}
