// Reads a card from a file, and prints what is on it, or why it is refused.
#![tactic(auto)]

use anyhow::{Context, bail};
use cardtexts::{Refusal, read_any_card};
use failures::Failure;
use std::env;
use std::fs::File;
use std::io::{self, Read};
use stores::{BLOCK_BYTES, BLOCK_LIMIT};

// How many bytes the largest card has.
const CARD_LIMIT: u64 = BLOCK_LIMIT as u64 * BLOCK_BYTES as u64;

// The program's only argument, if it has just one.
fn only_argument(rt: &HostRuntime) -> io::Result<Option<String>> {
    let mut args = env::args(rt)?.skip(1);
    let first = args.next();
    Ok(if args.next().is_none() { first } else { None })
}

// A file's bytes, but no more than one byte past the largest card: so much is enough to see that it is too large,
// whether the system knows the file's size or not.
fn bytes_of(rt: &HostRuntime, path: &str) -> io::Result<Vec<u8>> {
    let mut bytes = Vec::new(rt.alloc());
    File::open(rt, path)?
        .take(CARD_LIMIT + 1)
        .read_to_end(&mut bytes)?;
    Ok(bytes)
}

fn run(rt: &HostRuntime) -> anyhow::Result<()> {
    let Some(path) = only_argument(rt)? else {
        bail!("usage: cardread FILE");
    };
    let bytes = bytes_of(rt, path.as_str()).context(format_args!("{path} cannot be read"))?;
    if bytes.len() as u64 > CARD_LIMIT {
        bail!("{path} is larger than {BLOCK_LIMIT} blocks of {BLOCK_BYTES} bytes");
    }
    match read_any_card(rt.alloc(), bytes) {
        Ok(card) => print!(rt; "{card}")?,
        Err(Failure::Because(fault)) => {
            print!(rt; "{}", Refusal(fault))?;
            bail!("the card is refused");
        }
        Err(Failure::Memory) => bail!("out of memory"),
    }
    Ok(())
}

fn main(rt: HostRuntime) -> anyhow::Result<()> {
    run(&rt)
}
