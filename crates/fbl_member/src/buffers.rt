//! The memory for the messages of a step, which is taken before anything changes.

ghost use Rattle.std.specs.Prelude.{◌≡◌, ◌+◌, ◌≤◌, length, IfOk, IfSome, vec_len};
ghost use Rattle.std.specs.List.{All};
ghost use Rattle.fbl_table.specs.Tables.{piggybacked};
ghost use Rattle.fbl_member.specs.Members.{messages_from};
ghost use Rattle.fbl_member.specs.Stored.{HasRoom, HasRooms};

use crate::carried::Carried;
use crate::wire::Wire;
use fbl_table::{Entry, Table};
use fbl_trace::Member;
use std::alloc::{AllocError, Global};

/// Room for the messages of a step, and a list for each with room for what it carries.
#[derive(Drop)]
pub(crate) struct Buffers<N> {
    wires: Vec<Wire<N>>,
    lists: Vec<Vec<Entry>>,
}

impl<N: Copy> Buffers<N> {
    /// Room for so many messages, each with at most so many entries.
    pub(crate) fn for_messages(
        alloc: Global,
        messages: usize,
        entries: usize,
    ) -> Result<Buffers<N>, AllocError>
        ensures { IfOk result (HasRooms messages entries) }
    {
        Ok(Buffers {
            lists: empty_lists(alloc, messages, entries)?,
            wires: Vec::with_capacity(alloc, messages)?,
        })
    }

    /// Makes the messages of a step's sends, numbered from one more than `before`, each with what the table passes on.
    pub(crate) fn into_wires(
        self,
        me: Member,
        before: u32,
        sends: &[(Member, N)],
        table: &Table,
        f: u8,
    ) -> Vec<Wire<N>>
        requires rooms { HasRooms (length sends.now) (length (piggybacked f table.now)) self }
        requires numbers { before + length sends.now ≤ 8192 }
        ensures { result.items ≡ messages_from me before (piggybacked f table.now) sends.now }
    {
        // `len` says that no two of the table's determinants are the same, as each message must carry them
        let _distinct_entries = table.len();
        let Buffers {
            mut wires,
            mut lists,
        } = self;
        for (place, (to, note)) in sends.iter().enumerate() {
            let number = before + place as u32 + 1;
            let carried = next_carried(lists.take_last(), wires.last(), table, f, sends.len());
            wires.push_reserved(Wire::new(me, *to, number, *note, carried));
        }
        wires
    }
}

/// As many empty lists as this, each with this much room.
fn empty_lists(alloc: Global, count: usize, room: usize) -> Result<Vec<Vec<Entry>>, AllocError>
    ensures len { IfOk result (λ lists. vec_len lists ≡ count) }
    ensures room { IfOk result (λ lists. All (HasRoom room) lists.items) }
{
    let mut lists = Vec::with_capacity(alloc, count)?;
    for _place in 0..count {
        lists.push_reserved(Vec::with_capacity(alloc, room)?);
    }
    Ok(lists)
}

/// What the next of so many messages of a step carries: the list of the one made before, if that can be shared, and else a
/// list of what the table passes on.
fn next_carried<N: Copy>(
    reserved: Vec<Entry>,
    made: Option<&Wire<N>>,
    table: &Table,
    f: u8,
    messages: usize,
) -> Carried
    requires made { IfSome made (λ wire. wire.now.carried ≡ piggybacked f table.now) }
    requires room { HasRoom (length (piggybacked f table.now)) reserved }
    ensures { result ≡ piggybacked f table.now }
{
    match made {
        Some(wire) => match wire.share_carried() {
            Some(carried) => carried,
            None => carried_by(reserved, table, f, messages),
        },
        None => carried_by(reserved, table, f, messages),
    }
}

/// What the table passes on, for so many messages. Where there is no memory for a list of it, or for sharing one, each
/// message has its own list, for which room was taken.
fn carried_by(reserved: Vec<Entry>, table: &Table, f: u8, messages: usize) -> Carried
    requires { HasRoom (length (piggybacked f table.now)) reserved }
    ensures { result ≡ piggybacked f table.now }
{
    let entries = passed_on(reserved, table, f, messages);
    if messages > 1 {
        Carried::for_several(entries)
    } else {
        Carried::own(entries)
    }
}

/// What the table passes on, in the list for which room was taken. How many of the carried entries are new shows only once the
/// table has taken them in, so there is room for more than is needed. A step with several messages gives the rest back, as many of
/// them may be in flight; one with a single message does where more than three quarters are left.
fn passed_on(reserved: Vec<Entry>, table: &Table, f: u8, messages: usize) -> Vec<Entry>
    requires { HasRoom (length (piggybacked f table.now)) reserved }
    ensures { result.items ≡ piggybacked f table.now }
{
    let mut entries = reserved;
    table.piggyback_into(f, &mut entries);
    if messages > 1 || entries.len() < entries.capacity() / 4 {
        entries.shrink_to_fit();
    }
    entries
}
