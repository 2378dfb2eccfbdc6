pub mod stored;

// A store in memory that the caller gives and gets back. It has as many whole blocks as fit there; bytes after the last
// are kept as they are. It is on or off by a flag and not by its type, since a restart turns the same value on.
#[derive(Drop)]
pub struct Image {
    bytes: Vec<u8>,
    on: bool,
}
