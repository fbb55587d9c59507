//! Takes handles apart.
ghost use Rattle.std.specs.Prelude.{◌≡◌, ◌-◌, ◌^◌, map, sum, min, IfOk};

use crate::answers::KeptAnswer;
use crate::handle::HubHandle;
use crate::session::SharedSession;
use ra_keep::Keeper;
use ra_locked::RegistryHandle;
use std::alloc::{AllocError, Global};
use std::sync::Wait;
use std::sync::ledger::Ledger;

/// What handles come apart into.
#[derive(Drop)]
pub struct Taken<R: Wait, K: Keeper + Drop, L: Ledger> {
    pub registries: Vec<RegistryHandle<R, K, SharedSession, L>>,
    pub answers: Vec<Vec<KeptAnswer>>,
}

/// How many calls the handles made under the lock of a session.
pub(crate) fn steps_of<R: Wait, K: Keeper + Drop, L: Ledger>(handles: &[HubHandle<R, K, L>]) -> u64
    ensures { result ≡ min (sum (map (λ h. h.steps) handles.now)) (2 ^ 64 - 1) }
{
    let mut steps = 0u64;
    for handle in handles {
        steps = steps.saturating_add(handle.steps);
    }
    steps
}

/// The handles of the registry, and the answers that were kept.
pub(crate) fn take_apart<R: Wait + Drop, K: Keeper + Drop, L: Ledger>(
    alloc: Global,
    handles: Vec<HubHandle<R, K, L>>,
) -> Result<Taken<R, K, L>, AllocError>
    ensures registries { IfOk result (λ t. t.registries.items ≡ map (λ h. h.registry) handles.items) }
    ensures answers { IfOk result (λ t. map (λ v. v.items) t.answers.items ≡ map (λ h. h.answers.items) handles.items) }
{
    let mut registries = Vec::new(alloc);
    let mut books = Vec::new(alloc);
    for handle in handles {
        let HubHandle {
            registry,
            answers,
            steps: _,
        } = handle;
        registries.push(registry)?;
        books.push(answers)?;
    }
    Ok(Taken {
        registries,
        answers: books,
    })
}
