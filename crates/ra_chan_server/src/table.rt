//! The requests by their arrivals, with the arrivals of all by their ids, and of those that were not handed out.
ghost use Rattle.std.specs.Prelude.{◌≡◌, ◌<◌, ◌+◌, ◌++◌, ◌∷◌, [], ℕ, not, Some, None, length, map, option_map, IfOk, OnOk, OnErr};
ghost use Rattle.std.specs.List.{AllByRecursion, filter, filter_map, list_any};
ghost use Rattle.std.specs.Map.{keys_of, lookup, set_value};
ghost use Rattle.std.specs.BTreeMap.{is_at};
ghost use Rattle.std.specs.Ordering.{nat_cmp};
ghost use Rattle.ra_ipc.specs.ChannelServers.{holds, is_timed_out, timeout_one};
ghost use Rattle.ra_chan_server.specs.Requests.{id_in, is_here, opened, opened_call, marked, ActiveFits};
ghost use Rattle.ra_chan_server.specs.View.{active_of, call_of};
ghost use Rattle.ra_chan_server.specs.Held.{Ascending, AreArrivals, AreHeld, arrival_of, request_of, actives, here, SetAt};

use crate::call::Call;
use crate::index;
use crate::request::{self, Request};
use ra_values::NoMemory;
use std::alloc::Global;
use std::collections::{BTreeMap, BTreeSet};

/// Adds a request behind all others.
fn insert(
    requests: &mut BTreeMap<u64, Request>,
    arrival: u64,
    request: Request,
) -> Result<(), NoMemory>
    requires { AllByRecursion (λ other. other < arrival) (keys_of requests.old.entries) }
    ensures ok { OnOk result (requests.new.entries ≡ requests.old.entries ++ (arrival, request) ∷ []) }
    ensures err { OnErr result (requests.new.entries ≡ requests.old.entries) }
{
    requests.insert(arrival, request)?;
    Ok(())
}

/// Adds a request behind all others, and its arrival where it was not handed out.
fn place(
    requests: &mut BTreeMap<u64, Request>,
    not_handed: &mut BTreeSet<u64>,
    arrival: u64,
    request: Request,
) -> Result<(), NoMemory>
    requires order { AreArrivals arrival (keys_of requests.old.entries) }
    requires here { not_handed.old.keys ≡ here requests.old.entries }
    ensures ok { OnOk result (requests.new.entries ≡ requests.old.entries ++ (arrival, request) ∷ []) }
    ensures here { OnOk result (not_handed.new.keys ≡ here (requests.old.entries ++ (arrival, request) ∷ [])) }
    ensures err { OnErr result (requests.new.entries ≡ requests.old.entries) }
    ensures same { OnErr result (not_handed.new.keys ≡ not_handed.old.keys) }
{
    index::add(not_handed, request::is_here(&request), arrival)?;
    match insert(requests, arrival, request) {
        Ok(()) => Ok(()),
        Err(fault) => {
            index::take(not_handed, arrival);
            Err(fault)
        }
    }
}

/// Adds a request with an id that is not active.
pub fn add(
    requests: &mut BTreeMap<u64, Request>,
    arrivals: &mut BTreeMap<u32, u64>,
    not_handed: &mut BTreeSet<u64>,
    arrival: u64,
    id: u32,
    request: Request,
) -> Result<(), NoMemory>
    requires held { AreHeld arrival requests.old.entries arrivals.old.entries not_handed.old.keys }
    requires id { id_in (active_of request) ≡ id }
    requires fits { ActiveFits (active_of request) }
    requires absent { arrival_of id requests.old.entries ≡ None }
    ensures ok { OnOk result (requests.new.entries ≡ requests.old.entries ++ (arrival, request) ∷ []) }
    ensures held { OnOk result (AreHeld (arrival + 1) requests.new.entries arrivals.new.entries not_handed.new.keys) }
    ensures err { OnErr result (requests.new.entries ≡ requests.old.entries) }
    ensures kept { OnErr result (AreHeld arrival requests.new.entries arrivals.new.entries not_handed.new.keys) }
{
    index::name(arrivals, id, arrival)?;
    match place(requests, not_handed, arrival, request) {
        Ok(()) => Ok(()),
        Err(fault) => {
            index::unname(arrivals, id);
            Err(fault)
        }
    }
}

/// Takes out the request with this id and this arrival.
pub fn take(
    requests: &mut BTreeMap<u64, Request>,
    arrivals: &mut BTreeMap<u32, u64>,
    not_handed: &mut BTreeSet<u64>,
    id: u32,
    arrival: u64,
)
    requires { arrival_of id requests.old.entries ≡ Some arrival }
    ensures { (n : ℕ) → AreHeld n requests.old.entries arrivals.old.entries not_handed.old.keys →
        AreHeld n requests.new.entries arrivals.new.entries not_handed.new.keys × (actives requests.new.entries ≡ filter (λ a. not (holds id a)) (actives requests.old.entries)) }
{
    let _ = requests.remove(&arrival);
    index::unname(arrivals, id);
    index::take(not_handed, arrival);
}

/// The request with this id, and its arrival.
pub fn find<'a>(
    requests: &'a BTreeMap<u64, Request>,
    arrivals: &BTreeMap<u32, u64>,
    id: u32,
) -> Option<(u64, &'a Request)>
    requires order { Ascending (keys_of requests.now.entries) }
    requires found { (i : ℕ) → lookup (is_at (nat_cmp i)) arrivals.now.entries ≡ arrival_of i requests.now.entries }
    ensures arrival { option_map (λ f. f.0) result ≡ arrival_of id requests.now.entries }
    ensures request { option_map (λ f. f.1.now) result ≡ request_of id requests.now.entries }
{
    let arrival = arrivals.get(&id)?;
    let request = requests.get(arrival)?;
    Some((*arrival, request))
}

/// The call of this arrival is cancelled, if it waits.
pub fn mark(requests: &mut BTreeMap<u64, Request>, arrival: u64)
    ensures { SetAt marked arrival requests.old.entries requests.new.entries }
{
    if let Some(request) = requests.get_mut(&arrival) {
        request::mark(request);
    }
}

/// The channel of the request of this arrival is registered.
pub fn open(requests: &mut BTreeMap<u64, Request>, arrival: u64) -> Option<Call>
    ensures after { SetAt opened arrival requests.old.entries requests.new.entries }
    ensures call { (r : Request) → lookup (is_at (nat_cmp arrival)) requests.old.entries ≡ Some r → option_map call_of result ≡ opened_call (active_of r) }
{
    let request = requests.get_mut(&arrival)?;
    request::open(request)
}

/// The requests that were not handed out, in order.
pub fn listed<'a>(
    alloc: Global,
    requests: &'a BTreeMap<u64, Request>,
    not_handed: &BTreeSet<u64>,
) -> Result<Vec<&'a Request>, NoMemory>
    requires order { Ascending (keys_of requests.now.entries) }
    requires here { not_handed.now.keys ≡ here requests.now.entries }
    ensures { IfOk result (λ found. map (λ r. active_of r.now) found.items ≡ filter is_here (actives requests.now.entries)) }
{
    let mut found = Vec::new(alloc);
    for arrival in not_handed.iter() {
        if let Some(request) = requests.get(arrival) {
            found.push(request)?;
        }
    }
    Ok(found)
}

/// Whether one of the requests waited for its channel until this moment, or until an earlier one. It takes no memory.
pub fn has_late(requests: &BTreeMap<u64, Request>, not_handed: &BTreeSet<u64>, now: u64) -> bool
    requires order { Ascending (keys_of requests.now.entries) }
    requires here { not_handed.now.keys ≡ here requests.now.entries }
    ensures { result ≡ list_any (is_timed_out now) (actives requests.now.entries) }
{
    for arrival in not_handed.iter() {
        if let Some(request) = requests.get(arrival) {
            if request::is_late(request, now) {
                return true;
            }
        }
    }
    false
}

/// How many calls waited for their channel until this moment, or until an earlier one. It takes no memory.
pub fn late_calls(requests: &BTreeMap<u64, Request>, not_handed: &BTreeSet<u64>, now: u64) -> usize
    requires order { Ascending (keys_of requests.now.entries) }
    requires here { not_handed.now.keys ≡ here requests.now.entries }
    ensures { result ≡ length (filter_map (timeout_one now) (actives requests.now.entries)) }
{
    let mut count = 0;
    for arrival in not_handed.iter() {
        if let Some(request) = requests.get(arrival) {
            if request::is_late_call(request, now) {
                count += 1;
            }
        }
    }
    count
}

/// Equal requests with the same arrivals.
pub fn copied(
    alloc: Global,
    requests: &BTreeMap<u64, Request>,
) -> Result<BTreeMap<u64, Request>, NoMemory>
    requires { Ascending (keys_of requests.now.entries) }
    ensures { IfOk result (λ copy. copy.entries ≡ requests.now.entries) }
{
    let mut copy = BTreeMap::new(alloc);
    for (arrival, request) in requests.iter() {
        insert(&mut copy, *arrival, request.copy(alloc)?)?;
    }
    Ok(copy)
}
