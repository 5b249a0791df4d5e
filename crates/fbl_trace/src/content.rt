//! What members keep and what messages hold.

ghost use Rattle.std.specs.Prelude.{◌≡◌};

use crate::trace::Note;

/// How often the message of a start may be passed on at most.
const MOST_HOPS: u8 = 15;

/// A type whose `==` tells its values apart: it answers `true` for equal values alone, as a derived one does. `exact` shows it.
/// By it a commit finds out whether a ticket is still that of its member.
pub trait Exact: Copy + PartialEq {
    ghost use Rattle.fbl_trace.specs.Exactness.{IsExact};

    ghost exact: { IsExact Self.eq };
}

/// What a message may hold. A behaviour's messages may have any content; those of a configuration's starts have one that is
/// allowed.
pub trait Content: Exact {
    ghost use Rattle.std.specs.Prelude.{Bool};

    ghost allowed: { Self → Bool };

    /// Whether a start may have it.
    fn is_allowed(&self) -> bool
        ensures { result ≡ allowed self.now };
}

impl Exact for u8 {
    ghost use Rattle.std.proofs.Common.{rules};

    ghost exact = { Prim.search rules };
}

impl Exact for u32 {
    ghost use Rattle.std.proofs.Common.{rules};

    ghost exact = { Prim.search rules };
}

impl Exact for u64 {
    ghost use Rattle.std.proofs.Common.{rules};

    ghost exact = { Prim.search rules };
}

impl<T: Exact, const N: usize> Exact for [T; N] {
    ghost use Rattle.fbl_trace.specs.Exactness.{exact_lists};

    ghost exact = { exact_lists T.exact };
}

impl Exact for Note {
    ghost use Rattle.std.proofs.Common.{rules};

    ghost exact = { Prim.search rules };
}

impl Content for Note {
    ghost use Rattle.fbl_trace.specs.Steps.{has_few_hops};

    ghost allowed = { has_few_hops };

    /// At most 15 hops.
    fn is_allowed(&self) -> bool {
        self.hops <= MOST_HOPS
    }
}
