use crate::handmade::logged_card;
use crate::same::same;
use benches::{Bench, Given};
use faults::{Fault, Layer, Reason};
use mirrors::Mirror;
use records::Offset;
use samplers::Asleep;
use std::alloc::{AllocError, Global};
use std::test::Fail;

// A bench's memory for the card's three blocks, of which one is torn, behind what is there.
fn copy(bytes: &mut Vec<u8>, card: &[u8], torn: usize) -> Result<(), AllocError> {
    for (i, block) in card.chunks_exact(504).enumerate() {
        bytes.extend_from_slice(block)?;
        bytes.push(u8::from(i == torn))?;
    }
    Ok(())
}

// The memory of a bench of six blocks with this card twice, the copies of one block torn.
fn torn_twice(heap: Global, torn: usize) -> Result<Vec<u8>, AllocError> {
    let card = logged_card(heap)?;
    let mut bytes = Vec::new(heap);
    copy(&mut bytes, &card, torn)?;
    copy(&mut bytes, &card, torn)?;
    Ok(bytes)
}

fn bench(heap: Global, bytes: Vec<u8>) -> Result<Bench, AllocError> {
    let given = Given {
        bytes,
        fuses: Vec::new(heap),
        choices: Vec::new(heap),
    };
    Bench::new(heap, given).map_err(|_given| AllocError)
}

// A block of which both copies are torn is refused by the mirror, at the place where the mount comes to it.
#[test]
fn torn_block_refuses_the_mount(rt: HostRuntime) -> Result<(), Fail> {
    let heap = rt.alloc();
    for block in 0..3u8 { // block up to 2
        let mirror = Mirror::new(bench(heap, torn_twice(heap, usize::from(block))?)?);
        let mut asleep: Asleep<Mirror<Bench>, Offset> = Asleep::new(mirror);
        let fault = Fault {
            reason: Reason::Torn,
            layer: Layer::Mirror,
            place: u64::from(block),
        };
        same(&rt, asleep.mount(), Err(fault), usize::from(block));
    }
    Ok(())
}
