//! A list of calls, one after another.
ghost use Rattle.std.specs.Prelude.{◌≡◌, [], map, IfOk};
ghost use Rattle.ra_router.specs.Hops.{replay};
ghost use Rattle.ra_router.specs.Stepping.{told_by};

use crate::acts::Acts;
use crate::ask::Step;
use crate::router::Router;
use ra_values::NoMemory;
use std::alloc::Global;

/// What a new router tells at each of these calls.
pub fn run(alloc: Global, steps: Vec<Step>) -> Result<Vec<Acts>, NoMemory>
    ensures { IfOk result (λ acts. map told_by acts.items ≡ replay [] steps.items) }
{
    let mut router = Router::new(alloc);
    let mut told = Vec::new(alloc);
    for step in steps {
        told.push(router.step(step)?)?;
    }
    Ok(told)
}
