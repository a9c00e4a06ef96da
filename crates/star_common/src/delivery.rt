// Writing a whole text to a sink.

ghost use Rattle.std.specs.{Prelude.{◌≡◌, ◌<◌, ◌↔◌, [], false, true, length, take, Ok, IfErr, IsOk, OnErr, OnOk}, Io.KnownBytes.Appends};

use crate::sink::Sink;

/// A write failed after `sent` bytes.
#[derive(Clone, Copy, Debug, PartialEq, Eq)]
pub struct WriteFault {
    pub sent: u64,
}

/// Writes a whole text with as many writes as it takes. Allocates nothing.
///
/// An empty text writes nothing. On `Ok` the sink has gained the whole text. On `Err` it has gained
/// the first `sent` bytes and is failed.
pub fn write_whole<S: Sink>(sink: &mut S, text: &[u8]) -> Result<(), WriteFault>
    ensures empty { text.now ≡ [] → IsOk result × (sink.new ≡ sink.old) }
    ensures ok { 0 < length text.now → (IsOk result ↔ (S.is_failed sink.new ≡ false)) }

    // The bytes that the sink has gained.
    ensures whole { OnOk result (Appends (S.contents sink.old) (S.contents sink.new) text.now) }
    ensures prefix { IfErr result (λ fault. (fault.sent < length text.now)
        × Appends (S.contents sink.old) (S.contents sink.new) (take fault.sent text.now)) }
    ensures failed { OnErr result (S.is_failed sink.new ≡ true) }
{
    let mut sent = 0;
    while sent < text.len() {
        match sink.write(&text[sent..]) {
            Ok(0) => return Err(WriteFault { sent: sent as u64 }),
            Ok(count) => sent += count,
            Err(_) => return Err(WriteFault { sent: sent as u64 }),
        }
    }
    Ok(())
}
