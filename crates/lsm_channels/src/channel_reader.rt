//! A channel's reader.

use lsm_reader::Cached;
use lsm_slots::Boarded;
use lsm_store::Reader;
use lsm_table::Shelf;
use std::marker::Model;

/// A reader, which holds no pin between two requests; and blocks for reads of a version of which it
/// has made all its pins. Contracts see the reader.
#[derive(Drop)]
pub(crate) struct ChannelReader<N: Boarded, S: Shelf> {
    pub(crate) reader: Reader<N, S>,
    pub(crate) blocks: Cached<N, S>,
}

impl<N: Boarded, S: Shelf> Model for ChannelReader<N, S> {
    ghost use Rattle.lsm_store.specs.Readers.{Learnt};

    ghost Value = { Learnt };

    ghost view = { λ r. r.reader };
}
