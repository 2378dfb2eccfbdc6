use crate::looking::{reads, same, starts, writes};
use images::Image;
use mirrors::Mirror;
use std::alloc::{AllocError, Global};
use std::test::Fail;
use stores::{BLOCK_BYTES, Store};

// An image's memory: each block is filled with one byte, and five more bytes stand after the last.
fn memory(heap: Global, blocks: &[u8]) -> Result<Vec<u8>, AllocError> {
    let mut bytes = Vec::new(heap);
    for value in blocks {
        bytes.extend_from_slice(&[*value; BLOCK_BYTES])?;
    }
    bytes.extend_from_slice(&[11, 12, 13, 14, 15])?;
    Ok(bytes)
}

#[test]
fn image_gives_its_memory_back_as_it_was_written(rt: HostRuntime) -> Result<(), Fail> {
    let heap = rt.alloc();
    let mut image = Image::new(memory(heap, &[1, 2, 3])?);
    same(&rt, image.size(), 3, 0);
    same(&rt, image.write(0, &[8; BLOCK_BYTES]).is_err(), true, 1); // it is off
    starts(&rt, &mut image);
    writes(&rt, &mut image, 1, 9);
    same(&rt, image.write(2, &[8; 503]).is_err(), true, 2);
    reads(&rt, &mut image, 0, 1);
    reads(&rt, &mut image, 1, 9);
    reads(&rt, &mut image, 2, 3);
    let back = image.into_bytes();
    let written = memory(heap, &[1, 9, 3])?;
    same(&rt, back.as_slice(), written.as_slice(), 3);
    Ok(())
}

#[test]
fn mirror_over_an_image_writes_both_copies(rt: HostRuntime) -> Result<(), Fail> {
    let heap = rt.alloc();
    let mut mirror = Mirror::new(Image::new(memory(heap, &[1, 2, 1, 2, 5])?));
    starts(&rt, &mut mirror);
    writes(&rt, &mut mirror, 1, 9);
    reads(&rt, &mut mirror, 0, 1);
    reads(&rt, &mut mirror, 1, 9);
    let back = mirror.into_below().into_bytes();
    let written = memory(heap, &[1, 9, 1, 9, 5])?;
    same(&rt, back.as_slice(), written.as_slice(), 3);
    Ok(())
}
