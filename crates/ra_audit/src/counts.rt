//! How many records each session has.
ghost use Rattle.std.specs.Prelude.{◌≡◌, ◌+◌, ◌<◌, ◌^◌, unwrap_or, if◌then◌else◌, IfOk, OnOk};
ghost use Rattle.std.specs.BTreeMap.{get, is_at};
ghost use Rattle.ra_base.specs.Keys.{key_cmp};
ghost use Rattle.ra_base.specs.declared.key.Key.{Key};

use ra_base::{Key, NoMemory};
use std::collections::BTreeMap;

/// Counts one more record of the session, and answers how many it has now.
pub fn count(counts: &mut BTreeMap<Key, u64>, key: &Key) -> Result<u64, NoMemory>
    requires { unwrap_or (get key_cmp counts.old key.now) 0 < 2 ^ 63 }
    ensures now { IfOk result (λ n. n ≡ unwrap_or (get key_cmp counts.old key.now) 0 + 1) }
    ensures counts { OnOk result ((other : Key) → unwrap_or (get key_cmp counts.new other) 0 ≡ (if is_at (key_cmp key.now) other then unwrap_or (get key_cmp counts.old other) 0 + 1 else unwrap_or (get key_cmp counts.old other) 0)) }
{
    let n = counts.get(key).copied().unwrap_or(0) + 1;
    counts.insert(key.same(), n)?;
    Ok(n)
}
