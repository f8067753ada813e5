// All the bytes into a sink.
ghost use Rattle.std.specs.Prelude.{◌≡◌, ◌<◌, ◌≤◌, length, take, OnOk, OnErr, IfErr, IsOk};
ghost use Rattle.std.specs.Io.KnownBytes.{Appends};
ghost use Rattle.plc_io.specs.Faults.{Rose};

use crate::sink::{Sink, Took};
use thiserror::Error;

/// A write failed.
#[derive(Clone, Copy, Debug, PartialEq, Eq, Error)]
#[error("a write failed after {sent} bytes")]
pub struct WriteFault {
    /// How many bytes had been taken.
    pub sent: usize,
}

/// Hands out all the bytes, in as many pieces as the sink likes. It takes no memory.
pub fn write_all<K: Sink>(out: &mut K, bytes: &[u8]) -> Result<(), WriteFault>
    ensures ok { OnOk result (Appends (K.taken out.old) (K.taken out.new) bytes.now) }
    ensures err { IfErr result (λ fault. Appends (K.taken out.old) (K.taken out.new) (take fault.sent bytes.now)) }
    ensures cut { IfErr result (λ fault. fault.sent < length bytes.now) }

    ensures cause { OnErr result (Rose (K.faults out.old) (K.faults out.new)) }
    ensures later { K.faults out.old ≤ K.faults out.new }
    ensures complete { ¬ Rose (K.faults out.old) (K.faults out.new) → IsOk result }
{
    let mut sent = 0;
    while sent < bytes.len() {
        match out.write(&bytes[sent..]) {
            Took::Bytes(count) => sent += count,
            Took::Failed => return Err(WriteFault { sent }),
        }
    }
    Ok(())
}
