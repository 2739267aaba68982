//! The devices from which bytes are read and to which bytes are written: the traits `Source` and
//! `Sink`, and implementations in memory. `write_all` writes a whole piece to a sink, and
//! `feed_all` feeds all bytes of a source to a taker.
#![tactic(auto)]

mod device;
mod endless;
mod feed;
mod fuse;
mod memory;

pub use device::{Failed, Memory, Sink, Source, write_all};
pub use endless::Endless;
pub use feed::{FeedFault, PIECE, Taker, feed_all};
pub use fuse::Fuse;
pub use memory::{Bytes, Kept};
