// Why a call has no answer of its own.
use grid::Refusal;
use std::alloc::AllocError;
use std::num::TryFromIntError;

#[derive(Drop)]
pub enum Stop {
    // The line is no call, or its numbers make no part that it needs.
    Unread,
    Refused(Refusal),
    OutOfMemory(AllocError),
}

impl From<TryFromIntError> for Stop {
    fn from(_error: TryFromIntError) -> Stop {
        Stop::Unread
    }
}

impl From<Refusal> for Stop {
    fn from(refusal: Refusal) -> Stop {
        Stop::Refused(refusal)
    }
}

impl From<AllocError> for Stop {
    fn from(error: AllocError) -> Stop {
        Stop::OutOfMemory(error)
    }
}
