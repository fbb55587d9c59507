//! The head of an opening, and the handshake that it begins.
ghost use Rattle.std.specs.Prelude.{◌≡◌, ◌<◌, ◌++◌, length, ℕ, Bool, List, false, IfOk, OnOk, OnErr, IsOkAnd, IsUtf8, option_map};
ghost use Rattle.ra_items.specs.Heads.{Head, IsRequestOf};
ghost use Rattle.ra_shake.specs.Made.{made_text};
ghost use Rattle.ra_shake.specs.declared.server.Stage.TheVariants as stages;
ghost use Rattle.ra_upgrade.specs.Ends.{max_head};
ghost use Rattle.ra_upgrade.specs.declared.request_head.HeadFault.{HeadFault};
ghost use Rattle.ra_upgrade.specs.declared.request_head.Upgrade.{Upgrade};
ghost use Rattle.ra_opening.specs.Openings.{grounds_of};
ghost use Rattle.ra_opening.specs.Stands.{IsUnopened};
ghost use Rattle.ra_opening.specs.Begins.{BeginsShake, AcceptsHead, RefusesHead, Heads, Draws, token_by, draws_before, IsBegunIn, IsKnownIn, IsToBeFramed};
ghost use Rattle.ra_opening.specs.Budget.{IsLong, HeadedLong};
ghost use Rattle.ra_opening.specs.Comes.{AsksFraming};

use crate::ends::OpeningEnd;
use crate::writing::write;
use ra_base::{Message, NoMemory, Token};
use ra_items::ItemReader;
use ra_ports::Entropy;
use ra_shake::{ServerShake, ShakeSettings, made};
use ra_upgrade::{HeadFault, Upgrade, answer, refusal};
use std::alloc::Global;

/// What the bytes so far come to, before the frames behind a head are read.
#[derive(Drop)]
pub(crate) enum Headed {
    /// No head has ended.
    Waits,
    /// A head was accepted, and that was written.
    Begun {
        shake: ServerShake,
        skip_frames: bool,
    },
    End {
        end: OpeningEnd,
    },
}

/// A copy of a text, where there is one.
fn same_secret(alloc: Global, secret: Option<&Message>) -> Result<Option<Message>, NoMemory>
    ensures { IfOk result (λ copied. copied ≡ option_map (λ s. s.now) secret.entry) }
{
    match secret {
        Some(secret) => Ok(Some(Message::copy(alloc, secret.as_slice())?)),
        None => Ok(None),
    }
}

/// A copy of the settings.
fn same_settings(alloc: Global, settings: &ShakeSettings) -> Result<ShakeSettings, NoMemory>
    ensures { IfOk result (λ copied. copied ≡ settings.now) }
{
    let secret = same_secret(alloc, settings.secret.as_ref())?;
    let commit = Message::copy(alloc, settings.commit.as_slice())?;
    Ok(ShakeSettings { secret, commit })
}

/// A challenge that is made of the next draw.
fn next_challenge<E: Entropy>(alloc: Global, entropy: &mut E) -> Result<Message, NoMemory>
    ensures value { IfOk result (λ challenge. challenge ≡ made_text (E.draw entropy.old 0)) }
    ensures utf8 { IfOk result IsUtf8 }
    ensures after { Draws (E.draw entropy.old) (E.draw entropy.new) 1 }
{
    let challenge = made(entropy.take())?;
    Message::copy(alloc, challenge.as_text().as_bytes())
}

/// The token of a link: the one that its head names, or one that is made of the next draw.
fn token_of<E: Entropy>(entropy: &mut E, named: Option<Token>) -> Result<Token, NoMemory>
    ensures value { IfOk result (λ token. token ≡ token_by (E.draw entropy.old) named) }
    ensures after { Draws (E.draw entropy.old) (E.draw entropy.new) (draws_before named) }
{
    match named {
        Some(token) => Ok(token),
        None => made(entropy.take()),
    }
}

/// The handshake that an accepted head begins.
fn begin_shake<E: Entropy>(
    alloc: Global,
    entropy: &mut E,
    settings: &ShakeSettings,
    upgrade: Upgrade,
) -> Result<ServerShake, NoMemory>
    ensures { BeginsShake (E.draw entropy.old) (E.draw entropy.new) settings.now upgrade result }
{
    let Ok(token) = token_of(entropy, upgrade.token) else {
        return Err(NoMemory);
    };
    let Ok(challenge) = next_challenge(alloc, entropy) else {
        return Err(NoMemory);
    };
    let Ok(settings) = same_settings(alloc, settings) else {
        return Err(NoMemory);
    };
    Ok(ServerShake::new(settings, token, upgrade.reconnection, challenge))
}

/// Answers an accepted head, and begins its handshake.
fn accept_head<E: Entropy>(
    alloc: Global,
    entropy: &mut E,
    settings: &ShakeSettings,
    upgrade: Upgrade,
    out: &mut Vec<u8>,
) -> Result<ServerShake, NoMemory>
    ensures begins { BeginsShake (E.draw entropy.old) (E.draw entropy.new) settings.now upgrade result }
    ensures answers { AcceptsHead out.old.items out.new.items upgrade result }
{
    let answer = answer(alloc, &upgrade);
    match begin_shake(alloc, entropy, settings, upgrade) {
        Err(fault) => Err(fault),
        Ok(shake) => match write_answer(out, answer) {
            Ok(()) => Ok(shake),
            Err(fault) => Err(fault),
        },
    }
}

/// Adds a text, or nothing where there is no memory.
fn write_answer(out: &mut Vec<u8>, text: Result<Message, NoMemory>) -> Result<(), NoMemory>
    ensures ok { OnOk result (IsOkAnd text (λ t. out.new.items ≡ out.old.items ++ t)) }
    ensures err { OnErr result (out.new.items ≡ out.old.items) }
{
    match text {
        Ok(text) => write(out, text.as_slice()),
        Err(fault) => Err(fault),
    }
}

/// Answers a refused head.
fn refuse_head(alloc: Global, fault: HeadFault, out: &mut Vec<u8>) -> OpeningEnd
    ensures refuses { RefusesHead fault result out.old.items out.new.items }
    ensures long { IsLong result }
{
    if fault == HeadFault::NoMemory {
        return OpeningEnd::NoMemory;
    }
    match write_answer(out, refusal(alloc, &fault)) {
        Ok(()) => OpeningEnd::BadHead { fault },
        Err(_) => OpeningEnd::NoMemory,
    }
}

/// The head, once it is whole.
pub(crate) fn open_head<E: Entropy>(
    alloc: Global,
    reader: &mut ItemReader,
    entropy: &mut E,
    settings: &ShakeSettings,
    out: &mut Vec<u8>,
) -> Headed
    requires { reader.old.behind_head ≡ false }
    ensures made { (signature : List ℕ → List ℕ) (counts : List ℕ → List ℕ → Bool) (draw : ℕ → List ℕ)
        (head : Head Upgrade HeadFault) (text before : List ℕ)
        → IsRequestOf text head
        → let grounds = grounds_of settings.now signature counts draw in
        IsUnopened grounds head text before (E.draw entropy.old) reader.old out.old.items
        → Heads result grounds head text before (E.draw entropy.new) reader.new out.new.items }
    ensures known { IsKnownIn result reader.old.unread }
    ensures framing { AsksFraming reader.old.unread → IsToBeFramed result out.old.items out.new.items }
    ensures begun { IsBegunIn result reader.new }
    ensures long { HeadedLong result }
    ensures bounded { result ≡ Headed.Waits → length reader.new.unread < max_head }
{
    match reader.next_request(alloc) {
        Ok(None) => Headed::Waits,
        Err(fault) => Headed::End {
            end: refuse_head(alloc, fault, out),
        },
        Ok(Some(upgrade)) => {
            let skip_frames = upgrade.skip_frames;
            match accept_head(alloc, entropy, settings, upgrade, out) {
                Ok(shake) => Headed::Begun { shake, skip_frames },
                Err(_) => Headed::End {
                    end: OpeningEnd::NoMemory,
                },
            }
        }
    }
}
