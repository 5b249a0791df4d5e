//! Groups in which nothing is received yet.

ghost use Rattle.std.specs.Prelude.{◌≡◌, IfOk};
ghost use Rattle.fbl_law.specs.GroupSteps.{IsGroupStart};

use crate::group::Group;
use fbl_channels::send_starts;
use fbl_member::fresh_members;
use fbl_trace::{Behaviour, Config, MemberSet};
use std::alloc::{AllocError, Global};
use std::marker::PhantomData;

impl<B: Behaviour> Group<B> {
    /// A group of these parameters in which the starts are sent and nothing is received yet. Each member begins in its first
    /// state, and its first checkpoint is its fresh record. `Err` comes only where there is no memory for the group; the configuration is dropped then.
    pub fn new(alloc: Global, config: Config<B::Note>) -> Result<Group<B>, AllocError>
        ensures { IfOk result (λ g. IsGroupStart B.next config g) }
    {
        let members = fresh_members::<B>(alloc, &config)?;
        let checkpoints = fresh_members::<B>(alloc, &config)?;
        let (trace, channels) = send_starts(alloc, &config)?;
        Ok(Group {
            config,
            members,
            checkpoints,
            channels,
            trace,
            down: MemberSet::empty(),
            receipts_ever: 0,
            undone_ever: 0,
            behaviour: PhantomData,
        })
    }
}
