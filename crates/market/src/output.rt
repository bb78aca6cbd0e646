//! The bytes of an output.

ghost use Rattle.std.specs.Prelude.{◌≡◌, ◌≤◌, OnOk, OnErr, length};
ghost use Rattle.market_edges.specs.Counts.{Rose};
ghost use Rattle.market.specs.Output.{Appends, AppendsPart};

use market_edges::{Failed, Sink};

/// Writes all bytes. After a failure the sink got a proper prefix of them.
pub fn write_output<K: Sink>(output: &mut K, bytes: &[u8]) -> Result<(), Failed>
    ensures ok { OnOk result (Appends (K.written output.old) (K.written output.new) bytes.now) }
    ensures part { OnErr result (AppendsPart (K.written output.old) (K.written output.new) bytes.now) }
    ensures failed { OnErr result (Rose (K.faults output.old) (K.faults output.new)) }
    ensures no_fault { OnOk result (K.faults output.new ≡ K.faults output.old) }
    ensures never_falls { K.faults output.old ≤ K.faults output.new }
{
    let mut at = 0;
    while at < bytes.len() {
        let count = output.write(&bytes[at..])?;
        if count == 0 {
            return Err(Failed);
        }
        at += count;
    }
    Ok(())
}
