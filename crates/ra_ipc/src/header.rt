//! Headers, taken apart.
ghost use Rattle.std.specs.Prelude.{◌≡◌, ℕ, ◌<◌, ◌^◌, [], ◌∷◌, length, MatchResult, MatchOption, Some, None, IsTrue, not, false};
ghost use Rattle.ra_values.specs.Tree.{Trees, more, none, int, text, array};
ghost use Rattle.ra_values.specs.View.{tree, trees};
ghost use Rattle.ra_ipc.specs.View.{id_of};
ghost use Rattle.ra_ipc.specs.Packets.{single};
ghost use Rattle.ra_ipc.specs.ReadMessage.{id_part, text_part, wrong_element, wrong_after_code, parts_of, elements_fault, header_fault, is_part};
ghost use Rattle.ra_ipc.specs.Heads.{IsHead};

use ra_values::{Text, Value};

/// The id that this element is.
fn as_id(value: &Value) -> Option<i32>
    ensures { MatchOption result (is_part id_part (tree value.now) ≡ false) (λ id. (tree value.now ≡ int (id_of id)) × (id_of id < 2 ^ 31)) }
{
    match value {
        Value::Int { n } if *n >= 0 => Some(*n),
        _ => None,
    }
}

/// The text that this element is.
fn as_text(value: &Value) -> Option<&Text>
    ensures { MatchOption result (is_part text_part (tree value.now) ≡ false) (λ t. tree value.now ≡ text t.now) }
{
    match value {
        Value::Text { text } => Some(text),
        _ => None,
    }
}

/// The one id after the code, or the index of the first wrong element.
fn id_alone(rest: &[Value]) -> Result<i32, usize>
    ensures { MatchResult result (λ id. (trees rest.now ≡ single (int (id_of id))) × (id_of id < 2 ^ 31)) (λ at. wrong_element 1 (id_part ∷ []) (trees rest.now) ≡ Some at) }
{
    match rest {
        [] => Err(1),
        [first, others @ ..] => match as_id(first) {
            None => Err(1),
            Some(id) => {
                if !others.is_empty() {
                    return Err(2);
                }
                Ok(id)
            }
        },
    }
}

/// Nothing after the code, or the index of the first wrong element.
fn nothing(rest: &[Value]) -> Result<(), usize>
    ensures { MatchResult result (λ _. trees rest.now ≡ none) (λ at. wrong_element 1 [] (trees rest.now) ≡ Some at) }
{
    match rest {
        [] => Ok(()),
        [_first, _others @ ..] => Err(1),
    }
}

/// The id, the channel and the name of a call or a listen.
#[derive(Drop)]
pub struct Target<'a> {
    pub id: i32,
    pub channel: &'a Text,
    pub name: &'a Text,
}

/// The three elements after the code, or the index of the first wrong one.
fn target_of(rest: &[Value]) -> Result<Target<'_>, usize>
    ensures { MatchResult result (λ t. (trees rest.now ≡ more (int (id_of t.id)) (more (text t.channel.now) (single (text t.name.now)))) × (id_of t.id < 2 ^ 31)) (λ at. wrong_element 1 (id_part ∷ text_part ∷ text_part ∷ []) (trees rest.now) ≡ Some at) }
{
    let [first, second, third, others @ ..] = rest else {
        return Err(short(rest));
    };
    let Some(id) = as_id(first) else {
        return Err(1);
    };
    let Some(channel) = as_text(second) else {
        return Err(2);
    };
    let Some(name) = as_text(third) else {
        return Err(3);
    };
    if !others.is_empty() {
        return Err(4);
    }
    Ok(Target { id, channel, name })
}

/// The first wrong element where fewer than three follow the code.
fn short(rest: &[Value]) -> usize
    requires { length rest.now < 3 }
    ensures { wrong_element 1 (id_part ∷ text_part ∷ text_part ∷ []) (trees rest.now) ≡ Some result }
{
    let Some(first) = rest.first() else {
        return 1;
    };
    if as_id(first).is_none() {
        return 1;
    }
    let Some(second) = rest.get(1) else {
        return 2;
    };
    if as_text(second).is_none() {
        return 2;
    }
    3
}

/// A header. The code is told by the variant.
#[derive(Drop)]
pub enum Head<'a> {
    Promise(Target<'a>),
    Cancel(i32),
    Listen(Target<'a>),
    Dispose(i32),
    Initialize,
    Success(i32),
    Error(i32),
    ErrorObj(i32),
    Fire(i32),
}

/// The header with this code and these elements after it, or the index of the first wrong one.
fn by_code(code: i32, rest: &[Value]) -> Result<Head<'_>, usize>
    ensures { MatchResult result (λ h. IsHead h (id_of code) (trees rest.now)) (λ at. wrong_after_code (parts_of (id_of code)) (trees rest.now) ≡ Some at) }
{
    match code {
        100 => Ok(Head::Promise(target_of(rest)?)),
        101 => Ok(Head::Cancel(id_alone(rest)?)),
        102 => Ok(Head::Listen(target_of(rest)?)),
        103 => Ok(Head::Dispose(id_alone(rest)?)),
        200 => {
            nothing(rest)?;
            Ok(Head::Initialize)
        }
        201 => Ok(Head::Success(id_alone(rest)?)),
        202 => Ok(Head::Error(id_alone(rest)?)),
        203 => Ok(Head::ErrorObj(id_alone(rest)?)),
        204 => Ok(Head::Fire(id_alone(rest)?)),
        _ => Err(0),
    }
}

fn of_elements(items: &[Value]) -> Result<Head<'_>, usize>
    ensures { MatchResult result (λ h. (code : ℕ) × (others : Trees) × (trees items.now ≡ more (int code) others) × IsHead h code others) (λ at. elements_fault (trees items.now) ≡ Some at) }
{
    match items {
        [Value::Int { n }, others @ ..] => by_code(*n, others),
        _ => Err(0),
    }
}

/// Takes a header apart, or gives the index of its first wrong element.
pub fn head_of(header: &Value) -> Result<Head<'_>, usize>
    ensures { MatchResult result (λ h. (code : ℕ) × (items : Trees) × (tree header.now ≡ array (more (int code) items)) × IsHead h code items) (λ at. header_fault (tree header.now) ≡ Some at) }
{
    match header {
        Value::Array { items } => of_elements(items.as_slice()),
        _ => Err(0),
    }
}
