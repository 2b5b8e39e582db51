//! Sending all bytes to a writer: `send`.

ghost use Rattle.std.specs.Prelude.{◌<◌, length, IfErr, OnOk, OnErr};
ghost use Rattle.gopher_text.specs.Watched.{FailsAtMost, HasFailed, HasSent, HasSentPart};

use crate::fault::SendFault;
use crate::watched::Watched;
use std::io::{ErrorKind, Write};

// How many interrupted writes of a call are tried again.
const MAX_RETRIES: u64 = 4_095;

/// Sends all of `bytes`, in as many writes as `writer` needs. Interrupted writes are tried again.
///
/// # Errors
///
/// `SendFault` (13): a write failed for another reason than an interruption, a write took no bytes,
/// or 4,096 writes of the call were interrupted. Exactly the first `sent` bytes were sent.
#[tactic(auto, using(crate::proofs::Streams::appends_more))]
pub fn send<W: Write>(writer: &mut Watched<W>, bytes: &[u8]) -> Result<(), SendFault>
    ensures all { OnOk result (HasSent W.contents writer.old writer.new bytes.now) }
    ensures sent { IfErr result (HasSentPart W.contents writer.old writer.new bytes.now) }
    ensures part { IfErr result (λ fault. fault.sent < length bytes.now) }
    ensures failed { OnErr result (HasFailed writer.old.failures writer.new.failures) }
    ensures interruptions { FailsAtMost writer.old writer.new 4096 }
{
    let mut sent = 0;
    let mut interruptions = 0;
    while sent < bytes.len() {
        match writer.write(&bytes[sent..]) {
            Ok(0) => return Err(SendFault { sent }),
            Ok(count) => sent += count,
            Err(error) if error.kind() == ErrorKind::Interrupted && interruptions < MAX_RETRIES => {
                interruptions += 1;
            }
            Err(_) => return Err(SendFault { sent }),
        }
    }
    Ok(())
}
