//! Several requests at once: those that are taken out, and those whose channel is registered.
ghost use Rattle.std.specs.Prelude.{◌≡◌, ◌≤◌, ◌+◌, [], ◌++◌, ℕ, List, length, map, not, Bool, option_map, vec_len, vec_capacity};
ghost use Rattle.std.specs.List.{AllByRecursion, filter, filter_map, cons_option};
ghost use Rattle.ra_ipc.specs.ChannelServers.{Active, open_one, call_one};
ghost use Rattle.ra_chan_server.specs.Requests.{id_in, waits_for, HaveOwnIds};
ghost use Rattle.ra_chan_server.specs.View.{call_of};

use crate::call::Call;
use crate::requests::Requests;

/// Adds a call behind the others, if there is one. It needs room.
fn put(calls: &mut Vec<Call>, call: Option<Call>)
    requires { vec_len calls.old + 1 ≤ vec_capacity calls.old }
    ensures calls { map call_of calls.new.items ≡ map call_of calls.old.items ++ cons_option (option_map call_of call) [] }
    ensures len { vec_len calls.new ≤ vec_len calls.old + 1 }
    ensures room { vec_capacity calls.old ≤ vec_capacity calls.new }
{
    if let Some(call) = call {
        if calls.push(call).is_err() {
            unreachable!();
        }
    }
}

impl Requests {
    /// Takes out the requests with these ids.
    pub fn take_all(&mut self, ids: &[u32])
        requires { HaveOwnIds self.old }
        ensures { (test : Active → Bool) → ids.now ≡ map id_in (filter test self.old) → self.new ≡ filter (λ a. not (test a)) self.old }
    {
        for id in ids {
            self.take(*id);
        }
    }

    /// The channel of the requests with these ids is registered. The calls are added behind the others, for which there is room.
    pub fn open_all(&mut self, ids: &[u32], calls: &mut Vec<Call>)
        requires own { HaveOwnIds self.old }
        requires room { vec_len calls.old + length ids.now ≤ vec_capacity calls.old }
        ensures after { (channel : List ℕ) → ids.now ≡ map id_in (filter (waits_for channel) self.old) → self.new ≡ map (open_one channel) self.old }
        ensures calls { (channel : List ℕ) → ids.now ≡ map id_in (filter (waits_for channel) self.old) → map call_of calls.new.items ≡ map call_of calls.old.items ++ filter_map (call_one channel) self.old }
    {
        for id in ids {
            let call = self.open(*id);
            put(calls, call);
        }
    }
}
