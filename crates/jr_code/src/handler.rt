//! The catches of a method, in the order in which a sweep comes to their handlers.

ghost use Rattle.std.specs.Prelude.{IfOk, length};
ghost use Rattle.jr_code.specs.Handlers.{AreNumbers};

use crate::code::{MethodCode, RegionKind};
use std::alloc::{AllocError, Global};

/// Where the handler of a catch stands, and the number of the catch's region.
#[derive(Clone, Copy, Debug, PartialEq, Eq, PartialOrd, Ord)]
pub(crate) struct Handler {
    pub(crate) place: u32,
    pub(crate) region: u32,
}

/// The handlers of a method, the first one first.
pub(crate) fn handlers_of(alloc: Global, method: &MethodCode) -> Result<Vec<Handler>, AllocError>
    ensures { IfOk result (λ handlers. AreNumbers (length method.now.regions.items) handlers.items) }
{
    let mut handlers = Vec::new(alloc);
    for number in 0..method.regions.len() {
        let region = method.regions.get(number);
        if let RegionKind::Catch(_fault) = region.kind {
            handlers.push(Handler {
                place: region.target,
                region: number,
            })?;
        }
    }
    handlers.sort_unstable();
    Ok(handlers)
}
