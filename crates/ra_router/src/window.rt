//! The two queues of each window: of its calls that wait for a hop, and of the hops that wait for a call.
ghost use Rattle.std.specs.Prelude.{◌≡◌, ℕ, ◌++◌, ◌∷◌, [], List, drop, slice_get, bytes_eq, option_map, if◌then◌else◌, OnOk, OnErr};
ghost use Rattle.std.specs.Prelude.{true};
ghost use Rattle.std.specs.Option.{is_some};
ghost use Rattle.std.specs.BTreeMap.{get};
ghost use Rattle.std.specs.Ordering.{nat_cmp};
ghost use Rattle.std.specs.Cmp.Lexicographic.{slice_cmp};
ghost use Rattle.ra_router.specs.Standing.{calls_at, hops_at, next_out};

use ra_base::Token;
use ra_values::{NoMemory, Value};
use std::alloc::Global;
use std::collections::{BTreeMap, VecDeque};

/// A hop that waits for a call of its window.
#[derive(Drop)]
pub struct Held {
    pub number: u32,
    pub caller: Token,
    pub id: i32,
    pub arg: Value,
}

/// A hop that was handed over and has no reply.
#[derive(Drop)]
pub struct Out {
    pub window: Token,
    pub caller: Token,
    pub id: i32,
}

/// The queues of one window, of which one is empty: the ids of its calls that wait, and the hops that wait.
#[derive(Drop)]
pub struct Window {
    pub calls: VecDeque<i32>,
    pub hops: VecDeque<Held>,
}

/// The id of the first call of this window that waits.
pub(crate) fn first_call(windows: &BTreeMap<Token, Window>, window: &Token) -> Option<i32>
    ensures { result ≡ slice_get (calls_at windows.now window.now) 0 }
{
    match windows.get(window)?.calls.front() {
        Some(id) => Some(*id),
        None => None,
    }
}

/// The first hop that waits at this window: its number, and what is kept of it from then on.
pub(crate) fn first_hop(windows: &BTreeMap<Token, Window>, window: &Token) -> Option<(u32, Out)>
    ensures { result ≡ option_map (next_out window.now) (slice_get (hops_at windows.now window.now) 0) }
{
    match windows.get(window)?.hops.front() {
        Some(hop) => Some((
            hop.number,
            Out {
                window: window.same(),
                caller: hop.caller.same(),
                id: hop.id,
            },
        )),
        None => None,
    }
}

/// Takes the first call of this window that waits.
pub(crate) fn take_call(windows: &mut BTreeMap<Token, Window>, window: &Token)
    ensures calls { (w : List ℕ) → calls_at windows.new w ≡ (if bytes_eq window.now w then drop 1 (calls_at windows.old w) else calls_at windows.old w) }
    ensures hops { (w : List ℕ) → hops_at windows.new w ≡ hops_at windows.old w }
{
    if let Some(queues) = windows.get_mut(window) {
        let _ = queues.calls.pop_front();
    }
}

/// Takes the first hop that waits at this window.
pub(crate) fn take_hop(windows: &mut BTreeMap<Token, Window>, window: &Token) -> Option<Held>
    ensures taken { result ≡ slice_get (hops_at windows.old window.now) 0 }
    ensures hops { (w : List ℕ) → hops_at windows.new w ≡ (if bytes_eq window.now w then drop 1 (hops_at windows.old w) else hops_at windows.old w) }
    ensures calls { (w : List ℕ) → calls_at windows.new w ≡ calls_at windows.old w }
{
    match windows.get_mut(window) {
        Some(queues) => queues.hops.pop_front(),
        None => None,
    }
}

/// Gives this window its queues, where it has none.
fn add_window(
    windows: &mut BTreeMap<Token, Window>,
    alloc: Global,
    window: &Token,
) -> Result<(), NoMemory>
    ensures calls { (w : List ℕ) → calls_at windows.new w ≡ calls_at windows.old w }
    ensures hops { (w : List ℕ) → hops_at windows.new w ≡ hops_at windows.old w }
    ensures there { OnOk result (is_some (get (slice_cmp nat_cmp) windows.new window.now) ≡ true) }
{
    if windows.contains_key(window) {
        return Ok(());
    }
    let queues = Window {
        calls: VecDeque::new(alloc),
        hops: VecDeque::new(alloc),
    };
    windows.insert(window.same(), queues)?;
    Ok(())
}

/// A call of this window waits, behind those that do.
pub(crate) fn hold_call(
    windows: &mut BTreeMap<Token, Window>,
    alloc: Global,
    window: &Token,
    id: i32,
) -> Result<(), NoMemory>
    ensures calls { OnOk result ((w : List ℕ) → calls_at windows.new w ≡ (if bytes_eq window.now w then calls_at windows.old w ++ id ∷ [] else calls_at windows.old w)) }
    ensures hops { (w : List ℕ) → hops_at windows.new w ≡ hops_at windows.old w }
    ensures same { OnErr result ((w : List ℕ) → calls_at windows.new w ≡ calls_at windows.old w) }
{
    add_window(windows, alloc, window)?;
    match windows.get_mut(window) {
        Some(queues) => {
            queues.calls.push_back(id)?;
            Ok(())
        }
        None => Err(NoMemory),
    }
}

/// A hop waits at this window, behind those that do.
pub(crate) fn hold_hop(
    windows: &mut BTreeMap<Token, Window>,
    alloc: Global,
    window: &Token,
    hop: Held,
) -> Result<(), NoMemory>
    ensures hops { OnOk result ((w : List ℕ) → hops_at windows.new w ≡ (if bytes_eq window.now w then hops_at windows.old w ++ hop ∷ [] else hops_at windows.old w)) }
    ensures calls { (w : List ℕ) → calls_at windows.new w ≡ calls_at windows.old w }
    ensures same { OnErr result ((w : List ℕ) → hops_at windows.new w ≡ hops_at windows.old w) }
{
    add_window(windows, alloc, window)?;
    match windows.get_mut(window) {
        Some(queues) => {
            queues.hops.push_back(hop)?;
            Ok(())
        }
        None => Err(NoMemory),
    }
}
