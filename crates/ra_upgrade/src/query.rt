//! The query of a request target.
ghost use Rattle.std.specs.Prelude.{◌≡◌, ◌==◌, position, map, option_map, IfOk, OnOk, string_bytes, ◌++◌, ◌∷◌, []};
ghost use Rattle.ra_upgrade.specs.Query as spec;
ghost use Rattle.ra_upgrade.specs.Query.{question_mark, query_of, pairs, values_of, only, only_value};

use std::alloc::{AllocError, Global};

fn first_question_mark(target: &[u8]) -> Option<usize>
    ensures { result ≡ position (λ b. b == question_mark) target.now }
{
    target.iter().position(|byte| *byte == b'?')
}

/// What follows the first question mark of a target.
pub fn query(target: &[u8]) -> &[u8]
    ensures { result.now ≡ query_of target.now }
{
    match first_question_mark(target) {
        Some(at) => &target[at + 1..],
        None => &[],
    }
}

/// Keeps the value of a pair that has the name.
fn keep(values: &mut Vec<String>, name: &str, pair: (String, String)) -> Result<(), AllocError>
    ensures { OnOk result (map string_bytes values.new.items ≡ map string_bytes values.old.items ++ values_of name.now ((string_bytes pair.0, string_bytes pair.1) ∷ [])) }
{
    let (key, value) = pair;
    if key.as_str() == name {
        values.push(value)?;
    }
    Ok(())
}

/// The values of the pairs of that name, in order.
fn values(alloc: Global, query: &[u8], name: &str) -> Result<Vec<String>, AllocError>
    ensures { IfOk result (λ values. map string_bytes values.items ≡ values_of name.now (pairs query.now)) }
{
    let mut values = Vec::new(alloc);
    for pair in form_urlencoded::parse(alloc, query).into_owned() {
        keep(&mut values, name, pair?)?;
    }
    Ok(values)
}

/// The value of a name that just one pair has.
pub fn only_value_of(alloc: Global, query: &[u8], name: &str) -> Result<Option<String>, AllocError>
    ensures { IfOk result (λ value. option_map string_bytes value ≡ only_value name.now query.now) }
{
    let mut values = values(alloc, query, name)?;
    if values.len() == 1 {
        Ok(values.pop())
    } else {
        Ok(None)
    }
}

/// Whether just one pair has the name, and its value is `true`.
pub fn flag(alloc: Global, query: &[u8], name: &str) -> Result<bool, AllocError>
    ensures { IfOk result (λ yes. yes ≡ spec.flag name.now query.now) }
{
    match only_value_of(alloc, query, name)? {
        Some(value) => Ok(value.as_str() == "true"),
        None => Ok(false),
    }
}
