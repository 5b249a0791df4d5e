//! Where the entries of receipts probably stand.

use fbl_trace::{Determinant, MOST_EVENTS};
use std::alloc::{AllocError, Global};

/// The places at which the entries of receipts were put, by receiver and receipt number. They change no answer: what stands at
/// a place is looked at before the place is given, and an entry whose place is not kept is found by its hash. No place is kept
/// for a receipt number beyond those of a trace.
#[derive(Drop)]
pub(crate) struct LikelyPlaces {
    by_receiver: Vec<Vec<u32>>,
}

impl LikelyPlaces {
    /// No places. It takes no memory.
    pub(crate) fn none(alloc: Global) -> LikelyPlaces {
        LikelyPlaces {
            by_receiver: Vec::new(alloc),
        }
    }

    /// The same places. `Err` comes only where there is no memory for them.
    pub(crate) fn copy(&self) -> Result<LikelyPlaces, AllocError> {
        Ok(LikelyPlaces {
            by_receiver: self.by_receiver.clone()?,
        })
    }

    /// Where the determinant's entry probably stands, or 0 if no place of it is kept.
    #[inline(always)]
    pub(crate) fn place(&self, det: &Determinant) -> usize {
        match self.by_receiver.get(usize::from(det.to.number())) {
            Some(places) => match places.get(det.rsn as usize) {
                Some(place) => *place as usize,
                None => 0,
            },
            None => 0,
        }
    }

    /// Keeps the place of the determinant's entry, if there is memory for that.
    pub(crate) fn keep(&mut self, det: &Determinant, place: usize) {
        if det.rsn <= MOST_EVENTS {
            if let Ok(place) = u32::try_from(place) {
                let _ = self.try_keep(det, place);
            }
        }
    }

    /// Keeps the place, or doesn't where there is no memory for it.
    fn try_keep(&mut self, det: &Determinant, place: u32) -> Result<(), AllocError> {
        let receiver = usize::from(det.to.number());
        let rsn = det.rsn as usize;
        if self.by_receiver.len() <= receiver {
            let alloc = *self.by_receiver.allocator();
            self.by_receiver
                .resize_with(receiver + 1, || Vec::new(alloc))?;
        }
        let places = &mut self.by_receiver[receiver];
        if places.len() < rsn {
            places.resize(rsn, 0)?;
        }
        if places.len() == rsn {
            places.push(place)?;
        } else {
            places[rsn] = place;
        }
        Ok(())
    }
}
