//! A result, read piece by piece.
use process::status::Status;

/// The length of a payload, which lies at the front of the work area; or the final status.
#[derive(Clone, Copy)]
pub enum Output {
    // A length: the bytes lie in the area that the caller lent, and a slice of it would keep that borrowed.
    Payload(usize),
    Final(Status),
}
