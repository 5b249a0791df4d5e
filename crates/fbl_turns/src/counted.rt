//! What workers have done.

ghost use Rattle.std.specs.Prelude.{◌≡◌, ◌+◌, ◌^◌, ◌<◌, ◌≤◌, true, slice_index};
ghost use Rattle.std.proofs.Math.ListN.{replicate};
ghost use Rattle.arrayvec.specs.ArrayVec.{array_vec_len};
ghost use Rattle.fbl_turns.specs.Counted.{counts_of};
ghost use Rattle.fbl_turns.specs.Runs.{more_at, nothing_done};

use arrayvec::ArrayVec;

/// What a drain did. Both lists have a place for each worker, and a worker that could not be started has 0.
#[derive(Drop, Debug)]
pub struct Drained {
    /// How many receipts each worker committed.
    pub by_worker: ArrayVec<u64, 8>,
    /// How many receipts were undone by the recoveries that each worker ran.
    pub undone_by_worker: ArrayVec<u64, 8>,
    /// How many workers were started. One for which no thread can be had takes no turn. Where nothing was in flight none is needed,
    /// and all count as started.
    pub started: u8,
    /// Whether nothing is in flight and nobody is down in the group that comes back.
    pub quiet: bool,
    /// Whether some worker ended because the trace had no room for a receipt.
    pub full: bool,
    /// Whether some worker ended for lack of memory, of a commit or of a recovery.
    pub memory: bool,
}

impl Drained {
    /// What this many workers do where nothing is in flight.
    pub fn of_nothing(workers: u8) -> Drained
        requires { workers ≤ 8 }
        ensures counts { counts_of result ≡ nothing_done workers }
        ensures rest { (result.started ≡ workers) × (result.quiet ≡ true) }
    {
        Drained {
            started: workers,
            quiet: true,
            ..Drained::nothing(workers)
        }
    }

    pub(crate) fn nothing(workers: u8) -> Drained
        requires { workers ≤ 8 }
        ensures { counts_of result ≡ nothing_done workers }
    {
        Drained {
            by_worker: zeros(workers),
            undone_by_worker: zeros(workers),
            started: 0,
            quiet: false,
            full: false,
            memory: false,
        }
    }
}

fn zeros(workers: u8) -> ArrayVec<u64, 8>
    requires { workers ≤ 8 }
    ensures { result.items ≡ replicate workers 0 }
{
    let mut counts = ArrayVec::new();
    for _worker in 0..workers {
        counts.push(0);
    }
    counts
}

pub(crate) fn add(counts: &mut ArrayVec<u64, 8>, worker: u8, more: u64)
    requires place { worker < array_vec_len counts.old }
    requires fits { slice_index counts.old.items worker + more < 2 ^ 64 }
    ensures { counts.new.items ≡ more_at counts.old.items worker more }
{
    counts[usize::from(worker)] += more;
}
