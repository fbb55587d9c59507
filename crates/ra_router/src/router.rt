//! Calls from one window to another.
ghost use Rattle.std.specs.Prelude.{◌≡◌, ℕ, ◌<◌, ◌==◌, ◌&&◌, List, [], ◌∷◌, ◌++◌, slice_get, Some, None, if◌then◌else◌, IfOk, OnOk, OnErr};
ghost use Rattle.std.specs.Option.{is_some};
ghost use Rattle.std.specs.BTreeMap.{get};
ghost use Rattle.std.specs.Ordering.{nat_cmp};
ghost use Rattle.ra_router.specs.declared.ask.Step.{Step};
ghost use Rattle.ra_router.specs.declared.ask.Ask.TheVariants as asks;
ghost use Rattle.ra_router.specs.Hops.{told};
ghost use Rattle.ra_router.specs.Standing.{Windows, Outs, Stands, calls_at, settled_by};
ghost use Rattle.ra_router.specs.Stepping.{Did, StandsFor, alone, call, tells, told_by};

use crate::acts::Acts;
use crate::ask::{Ask, Said, Step, Told};
use crate::window::{
    Held, Out, Window, first_call, first_hop, hold_call, hold_hop, take_call, take_hop,
};
use ra_base::Token;
use ra_values::{NoMemory, Value};
use std::alloc::Global;
use std::collections::BTreeMap;

/// As many hops are made at most.
pub const HOP_LIMIT: u32 = 2_147_483_647;

/// Which calls between windows wait, and which were handed over and have no reply.
///
/// It keeps an id for each call by which a window waits, number, caller and argument for each hop that waits, and number, window and
/// caller for each that was handed over, until its reply. For each window that ever waited or was called it keeps two queues, which
/// may be empty, and nothing else: what is answered is forgotten.
#[derive(Drop)]
pub struct Router {
    alloc: Global,
    /// How many hops were made.
    made: u32,
    windows: BTreeMap<Token, Window>,
    /// The hops that were handed over and have no reply, by their numbers.
    out: BTreeMap<u32, Out>,
}

/// An answer to a call.
fn tell(key: Token, id: i32, said: Said) -> Told
    ensures { result ≡ tells key id said }
{
    Told { key, id, said }
}

/// Just this answer to a call.
fn answer(key: Token, id: i32, said: Said) -> Acts
    ensures { result ≡ alone key id said }
{
    Acts::One {
        told: Told { key, id, said },
    }
}

/// Hands the next hop to the call of its window that waits.
fn hand_over(
    made: &mut u32,
    windows: &mut BTreeMap<Token, Window>,
    out: &mut BTreeMap<u32, Out>,
    caller: Token,
    id: i32,
    waiting: i32,
    window: Token,
    arg: Value,
) -> Result<Acts, NoMemory>
    requires { made.old < 2147483647 }
    ensures ok { (past : List Step) → Stands made.old windows.old out.old past → slice_get (calls_at windows.old window) 0 ≡ Some waiting
        → IfOk result (λ acts. Did acts made.new windows.new out.new past (call caller id (asks.To window arg))) }
    ensures err { (past : List Step) → Stands made.old windows.old out.old past → OnErr result (Stands made.new windows.new out.new past) }
{
    let number = *made;
    let kept = Out {
        window: window.same(),
        caller,
        id,
    };
    out.insert(number, kept)?;
    take_call(windows, &window);
    *made = number + 1;
    Ok(answer(window, waiting, Said::Hop { number, arg }))
}

/// Keeps the next hop until its window asks for it.
fn hold(
    alloc: Global,
    made: &mut u32,
    windows: &mut BTreeMap<Token, Window>,
    caller: Token,
    id: i32,
    window: Token,
    arg: Value,
) -> Result<Acts, NoMemory>
    requires { made.old < 2147483647 }
    ensures ok { (past : List Step) (out : Outs) → Stands made.old windows.old out past → slice_get (calls_at windows.old window) 0 ≡ None
        → IfOk result (λ acts. Did acts made.new windows.new out past (call caller id (asks.To window arg))) }
    ensures err { (past : List Step) (out : Outs) → Stands made.old windows.old out past → OnErr result (Stands made.new windows.new out past) }
{
    let number = *made;
    let hop = Held {
        number,
        caller,
        id,
        arg,
    };
    hold_hop(windows, alloc, &window, hop)?;
    *made = number + 1;
    Ok(Acts::Nothing)
}

/// A call to a window.
fn call_to(
    alloc: Global,
    made: &mut u32,
    windows: &mut BTreeMap<Token, Window>,
    out: &mut BTreeMap<u32, Out>,
    caller: Token,
    id: i32,
    window: Token,
    arg: Value,
) -> Result<Acts, NoMemory>
    ensures ok { (past : List Step) → Stands made.old windows.old out.old past
        → IfOk result (λ acts. Did acts made.new windows.new out.new past (call caller id (asks.To window arg))) }
    ensures err { (past : List Step) → Stands made.old windows.old out.old past → OnErr result (Stands made.new windows.new out.new past) }
{
    if *made >= HOP_LIMIT {
        return Ok(answer(caller, id, Said::Full));
    }
    match first_call(windows, &window) {
        Some(waiting) => hand_over(made, windows, out, caller, id, waiting, window, arg),
        None => hold(alloc, made, windows, caller, id, window, arg),
    }
}

/// A window asks for the next hop.
fn call_next(
    alloc: Global,
    windows: &mut BTreeMap<Token, Window>,
    out: &mut BTreeMap<u32, Out>,
    from: Token,
    id: i32,
) -> Result<Acts, NoMemory>
    ensures ok { (made : ℕ) (past : List Step) → Stands made windows.old out.old past
        → IfOk result (λ acts. Did acts made windows.new out.new past (call from id asks.Next)) }
    ensures err { (made : ℕ) (past : List Step) → Stands made windows.old out.old past → OnErr result (Stands made windows.new out.new past) }
{
    match first_hop(windows, &from) {
        Some((number, kept)) => {
            out.insert(number, kept)?;
            match take_hop(windows, &from) {
                Some(hop) => Ok(answer(
                    from,
                    id,
                    Said::Hop {
                        number,
                        arg: hop.arg,
                    },
                )),
                None => Ok(Acts::Nothing),
            }
        }
        None => {
            hold_call(windows, alloc, &from, id)?;
            Ok(Acts::Nothing)
        }
    }
}

/// Takes out the hop with this number, if it was handed to this window and has no reply.
fn take_out(out: &mut BTreeMap<u32, Out>, window: &Token, number: u32) -> Option<Out>
    ensures taken { result ≡ settled_by window.now (get nat_cmp out.old number) }
    ensures out { (n : ℕ) → get nat_cmp out.new n ≡ (if number == n && is_some (settled_by window.now (get nat_cmp out.old n)) then None else get nat_cmp out.old n) }
{
    if out.get(&number)?.window != *window {
        return None;
    }
    out.remove(&number)
}

/// A window replies to a hop.
fn call_reply(
    out: &mut BTreeMap<u32, Out>,
    from: Token,
    id: i32,
    number: u32,
    good: bool,
    value: Value,
) -> Acts
    ensures { (made : ℕ) (windows : Windows) (past : List Step) → Stands made windows out.old past
        → Did result made windows out.new past (call from id (asks.Reply number good value)) }
{
    match take_out(out, &from, number) {
        Some(
            Out {
                caller,
                id: call,
                ..
            },
        ) => Acts::Two {
            first: tell(caller, call, Said::Replied { good, value }),
            second: tell(from, id, Said::Done),
        },
        None => answer(from, id, Said::NoSuchCall),
    }
}

/// A call of a window, on what the router keeps.
fn act(
    alloc: Global,
    made: &mut u32,
    windows: &mut BTreeMap<Token, Window>,
    out: &mut BTreeMap<u32, Out>,
    from: Token,
    id: i32,
    ask: Ask,
) -> Result<Acts, NoMemory>
    ensures ok { (past : List Step) → Stands made.old windows.old out.old past
        → IfOk result (λ acts. Did acts made.new windows.new out.new past (call from id ask)) }
    ensures err { (past : List Step) → Stands made.old windows.old out.old past → OnErr result (Stands made.new windows.new out.new past) }
{
    match ask {
        Ask::BadTo => Ok(answer(from, id, Said::BadWindow)),
        Ask::To { window, arg } => call_to(alloc, made, windows, out, from, id, window, arg),
        Ask::Next => call_next(alloc, windows, out, from, id),
        Ask::Reply { hop, good, value } => Ok(call_reply(out, from, id, hop, good, value)),
        Ask::BadReply => Ok(answer(from, id, Said::NoSuchCall)),
    }
}

impl Router {
    /// A router that no call came to.
    pub fn new(alloc: Global) -> Router
        ensures { StandsFor result [] }
    {
        Router {
            alloc,
            made: 0,
            windows: BTreeMap::new(alloc),
            out: BTreeMap::new(alloc),
        }
    }

    /// The router takes a call of a window. Where there is no memory for it, the router stands for the same calls as before, and the
    /// call is lost.
    pub fn step(&mut self, step: Step) -> Result<Acts, NoMemory>
        ensures told { (past : List Step) → StandsFor self.old past → IfOk result (λ acts. told_by acts ≡ told past step) }
        ensures after { (past : List Step) → StandsFor self.old past → OnOk result (StandsFor self.new (past ++ step ∷ [])) }
        ensures same { (past : List Step) → StandsFor self.old past → OnErr result (StandsFor self.new past) }
    {
        act(
            self.alloc,
            &mut self.made,
            &mut self.windows,
            &mut self.out,
            step.from,
            step.id,
            step.ask,
        )
    }
}
