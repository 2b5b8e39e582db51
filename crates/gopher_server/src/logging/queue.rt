//! The batches of lines that wait to be written.

ghost use Rattle.std.specs.Prelude.{◌≡◌, IfOk, IfErr};
ghost use Rattle.gopher_server.specs.Batch.{receipt_of};

use crate::logging::batch::Batch;
use crossbeam_channel::{Receiver, Sender, bounded};
use gopher_item::NoMemory;
use std::alloc::Global;
use std::sync::Wait;
use std::sync::atomic::{AtomicBool, Ordering};

// The most batches that wait.
const MAX_BATCHES: usize = 64;

/// The queue that leads from the server threads to the thread that writes.
#[derive(Drop)]
pub struct LogQueue {
    sender: Sender<Batch, Global>,
    is_closed: AtomicBool,
}

/// Says that the queue took a batch with this many bytes and dropped requests. Only the queue makes
/// receipts.
#[derive(Clone, Copy, Debug, PartialEq, Eq)]
pub struct Receipt {
    bytes: usize,
    dropped: u64,
}

impl LogQueue {
    /// Makes an empty queue, and the receiver that takes batches out of it.
    ///
    /// # Errors
    ///
    /// `NoMemory` (90).
    pub(crate) fn new(alloc: Global) -> Result<(LogQueue, Receiver<Batch, Global>), NoMemory> {
        let (sender, receiver) = bounded(alloc, MAX_BATCHES)?;
        let queue = LogQueue {
            sender,
            is_closed: AtomicBool::new(false),
        };
        Ok((queue, receiver))
    }

    /// Hands on a batch, without waiting for room.
    ///
    /// # Errors
    ///
    /// The batch, if 64 wait or memory runs out.
    pub(crate) fn offer(&self, rt: &impl Wait, batch: Batch) -> Result<Receipt, Batch>
        ensures receipt { IfOk result (λ receipt. receipt ≡ receipt_of batch) }
        ensures refused { IfErr result (λ refused. refused ≡ batch) }
    {
        let receipt = Receipt {
            bytes: batch.number_of_bytes(),
            dropped: batch.number_of_dropped(),
        };
        match self.sender.try_send(rt, batch) {
            Ok(()) => Ok(receipt),
            Err(refused) => Err(refused.into_inner()),
        }
    }

    /// Records that no more batches come, and wakes the thread that writes with an empty one.
    pub(crate) fn close(&self, rt: &impl Wait, alloc: Global) {
        self.is_closed.store(true, Ordering::SeqCst);
        let _gone = self.sender.send(rt, Batch::new(alloc));
    }

    /// Returns whether no more batches come.
    pub(crate) fn is_closed(&self) -> bool {
        self.is_closed.load(Ordering::SeqCst)
    }
}
