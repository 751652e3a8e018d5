//! What calls are lent.
use client::paths::PathRow;
use host::inner::MAX_LINE_LEN;
use process::area::MAX_STATUS_LEN;
use requests::asked::MetaRow;
use slices::part::Part;
use std::alloc::{AllocError, Global};

/// How many rows a listing, a request and a server's handshake have.
const ROWS: usize = 4096;

/// How many bytes paths or a request have.
const TEXT: usize = 262_144;

/// The areas and rows that calls are lent.
#[derive(Drop)]
pub(crate) struct Room {
    pub(crate) work: Vec<u8>,
    pub(crate) status: Vec<u8>,
    pub(crate) text: Vec<u8>,
    pub(crate) paths: Vec<PathRow>,
    pub(crate) pairs: Vec<MetaRow>,
    pub(crate) versions: Vec<u64>,
}

impl Room {
    pub(crate) fn new(heap: Global) -> Result<Room, AllocError> {
        let nowhere = Part { at: 0, len: 0 };
        let work: Vec<u8> = vec![in heap; 0; MAX_LINE_LEN]?;
        let status: Vec<u8> = vec![in heap; 0; MAX_STATUS_LEN]?;
        let text: Vec<u8> = vec![in heap; 0; TEXT]?;
        let paths: Vec<PathRow> = vec![in heap; PathRow { at: 0, len: 0 }; ROWS]?;
        let pairs: Vec<MetaRow> = vec![in heap; MetaRow {
            key: nowhere,
            value: nowhere
        }; ROWS]?;
        let versions: Vec<u64> = vec![in heap; 0; ROWS]?;
        Ok(Room {
            work,
            status,
            text,
            paths,
            pairs,
            versions,
        })
    }
}
