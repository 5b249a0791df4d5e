//! What groups are made of.

use fbl_group::Group;
use fbl_trace::{Behaviour, Config, Member, Note, Start};
use std::alloc::{AllocError, Global};

/// The parameters of a group. A start is a sender, a receiver, a value and a number of hops.
#[derive(Clone, Copy)]
pub(crate) struct Setting<'a> {
    pub members: u8,
    pub f: u8,
    pub limit: u32,
    pub starts: &'a [(u8, u8, u32, u8)],
}

impl Setting<'_> {
    /// A group of these parameters in which the starts are sent. `Err` comes where memory is refused, and for parameters of no group.
    pub(crate) fn group<B: Behaviour<State = u64, Note = Note>>(
        &self,
        alloc: Global,
    ) -> Result<Group<B>, AllocError> {
        let mut starts = Vec::new(alloc);
        for &(from, to, value, hops) in self.starts {
            let (Some(from), Some(to)) = (Member::new(from), Member::new(to)) else {
                return Err(AllocError);
            };
            let note = Note { value, hops };
            starts.push(Start { from, to, note })?;
        }
        let config = Config::new(alloc, self.members, self.f, self.limit, &starts);
        Group::new(alloc, config.ok().ok_or(AllocError)?).map_err(|_| AllocError)
    }
}
