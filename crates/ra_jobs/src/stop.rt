//! A flag that tells workers to stop.
ghost use Rattle.std.specs.Prelude.{◌≡◌, false, true, IfOk};

use ra_base::NoMemory;
use std::alloc::Global;
use std::sync::Arc;
use std::sync::atomic::{AtomicBool, Ordering};

/// One holder of a flag that is set once for all its holders.
#[derive(Drop)]
pub struct Stop {
    flag: Arc<AtomicBool, Global>,
    /// Whether this holder has seen the flag set.
    pub mark: bool,
}

impl Stop {
    /// A flag that is not set. It is refused for want of memory alone.
    pub fn new(alloc: Global) -> Result<Stop, NoMemory>
        ensures { IfOk result (λ s. s.mark ≡ false) }
    {
        let flag = Arc::new(alloc, AtomicBool::new(false))?;
        Ok(Stop { flag, mark: false })
    }

    /// Another holder of this flag, which has not seen it set. It is refused for want of memory alone.
    pub fn share(&self) -> Result<Stop, NoMemory>
        ensures { IfOk result (λ s. s.mark ≡ false) }
    {
        let flag = Arc::try_clone(&self.flag)?;
        Ok(Stop { flag, mark: false })
    }

    /// Sets the flag for all holders. It takes no memory.
    pub fn set(&self) {
        self.flag.store(true, Ordering::SeqCst);
    }

    /// Whether the flag is set. Once it has answered true to this holder, it always does. It takes no memory.
    pub fn is_set(&mut self) -> bool
        ensures answer { result ≡ self.new.mark }
        ensures stays { self.old.mark ≡ true → self.new.mark ≡ true }
    {
        if !self.mark {
            self.mark = self.flag.load(Ordering::SeqCst);
        }
        self.mark
    }
}
