use std::alloc::{AllocError, Global};

// Three blocks, made by hand from the layout: a head, one sample block, one log block. Two slots, and the seed 0, with
// which the first five records have the slots 0, 1, 1, 0 and none.
pub(crate) const CARD_BYTES: usize = 1512;

// Where the sample block and the log block begin.
pub(crate) const SAMPLE: usize = 504;

pub(crate) const LOG: usize = 1008;

// Puts bytes at a place; what would lie past the end is left out.
pub(crate) fn put(bytes: &mut [u8], place: usize, new: &[u8]) {
    for (byte, new) in bytes.iter_mut().skip(place).zip(new) {
        *byte = *new;
    }
}

// A card with this kind, count and number of log entries, and no records.
pub(crate) fn card(heap: Global, kind: u8, count: u8, entries: u8) -> Result<Vec<u8>, AllocError> {
    let mut bytes = vec![in heap; 0; CARD_BYTES]?;
    let head = [
        1, 0, 18, kind, 1, 0, 2, 0, 0, 0, 0, 0, 0, 0, 0, 0, 0, 0, count, 0, entries,
    ];
    put(&mut bytes, 0, &head);
    Ok(bytes)
}

// Offset record k: second 100 + k, satellite k, 10 k nanoseconds.
pub(crate) fn offset_bytes(k: u8) -> [u8; 12] {
    let second = 100u8.wrapping_add(k);
    let nanoseconds = 10u8.wrapping_mul(k);
    [0, 0, 0, second, k, 0, 0, 0, 0, 0, 0, nanoseconds]
}

// Five records counted, of which the first two were refreshed into the sample block, and the next two stand in the log.
pub(crate) fn logged_card(heap: Global) -> Result<Vec<u8>, AllocError> {
    let mut bytes = card(heap, 1, 5, 2)?;
    put(&mut bytes, SAMPLE, &offset_bytes(1));
    put(&mut bytes, SAMPLE + 12, &offset_bytes(2));
    put(&mut bytes, LOG, &[0, 0, 0, 3]);
    put(&mut bytes, LOG + 4, &offset_bytes(3));
    put(&mut bytes, LOG + 16, &[0, 0, 0, 4]);
    put(&mut bytes, LOG + 20, &offset_bytes(4));
    Ok(bytes)
}

// The same records after a refresh: the sample of all five.
pub(crate) fn refreshed_card(heap: Global) -> Result<Vec<u8>, AllocError> {
    let mut bytes = card(heap, 1, 5, 0)?;
    put(&mut bytes, SAMPLE, &offset_bytes(4));
    put(&mut bytes, SAMPLE + 12, &offset_bytes(3));
    Ok(bytes)
}
