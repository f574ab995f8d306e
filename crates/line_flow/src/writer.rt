ghost use Rattle.std.specs.Prelude.{IsSome, OnOk, OnErr};
ghost use Rattle.ord_types.specs.Causes.{HasCause};
ghost use Rattle.ord_types.specs.Told.{Took, TookFront};

use ord_types::{Failed, Sink};

/// Writes all of the bytes. After a fault the sink has a front of them.
pub fn write_all<K: Sink>(out: &mut K, bytes: &[u8]) -> Result<(), Failed>
    ensures whole { OnOk result (IsSome (K.content out.old) → Took (K.content out.old) (K.content out.new) bytes.now) }
    ensures front { OnErr result (IsSome (K.content out.old) → TookFront (K.content out.old) (K.content out.new) bytes.now) }
    ensures cause { HasCause (K.faults out.old) (K.faults out.new) result }
{
    let mut rest = bytes;
    while !rest.is_empty() {
        let count = out.write(rest)?;
        rest = &rest[count..];
    }
    Ok(())
}

#[cfg(test)]
mod tests {
    use super::*;
    use ord_types::{List, MemSink};
    use std::test::Fail;

    #[test]
    fn written(rt: HostRuntime) -> Result<(), Fail> {
        let mut sink = MemSink::new(rt.alloc(), List::new(rt.alloc()))?;
        assert_eq!(rt; write_all(&mut sink, b"sent "), Ok(()));
        assert_eq!(rt; write_all(&mut sink, b""), Ok(()));
        assert_eq!(rt; write_all(&mut sink, b"0\n"), Ok(()));
        assert_eq!(rt; sink.bytes(), b"sent 0\n".as_slice());
        Ok(())
    }
}
