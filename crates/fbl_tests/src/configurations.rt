//! Configurations.

use fbl_trace::{Config, Member, Note, Start};
use std::alloc::{AllocError, Global};

/// Whether a configuration is kept, and copied. `Err` is to come only where memory is refused.
fn is_kept(alloc: Global) -> Result<bool, AllocError> {
    let (from, to, note) = (Member::at(0), Member::at(1), Note { value: 4, hops: 15 });
    let starts = [Start { from, to, note }];
    let config = Config::new(alloc, 3, 2, 100, &starts)
        .ok()
        .ok_or(AllocError)?;
    let copy = config.copy()?;
    Ok(
        copy.same(&config)
            && (copy.members(), copy.f(), copy.limit()) == (3, 2, 100)
            && copy.starts() == starts.as_slice(),
    )
}

#[test]
fn configurations(rt: HostRuntime) {
    assert!(rt; is_kept(rt.alloc()).unwrap_or(false));
}

/// It holds where any one request for memory is refused, too. The gate refuses each in turn.
#[test]
fn without_memory(rt: HostRuntime) {
    assert!(rt; is_kept(rt.alloc()).unwrap_or(true));
}
