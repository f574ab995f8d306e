use crate::files::{overwrite, repeated};
use ord_types::Bytes;
use std::alloc::AllocError;

/// What was done to a disk in memory.
#[derive(Drop)]
pub enum Call {
    Wrote { file: u8, at: u64, bytes: Bytes },
    Synced { file: u8 },
}

impl Call {
    ghost use Rattle.std.specs.Prelude.{◌≡◌, OnOk};
    ghost use Rattle.gate_log.specs.Calls.{bytes_after, filled_after, is_sync as is_sync_of};

    /// Whether it is a sync of this file.
    pub fn is_sync(&self, file: u8) -> bool
        ensures { result ≡ is_sync_of file self.now }
    {
        match self {
            Call::Synced { file: synced } => *synced == file,
            Call::Wrote { .. } => false,
        }
    }

    /// Makes a write of this file again, on these bytes.
    pub fn write_again(&self, old: &mut Vec<u8>, file: u8) -> Result<(), AllocError>
        ensures { OnOk result (old.new.items ≡ bytes_after file self.now old.old.items) }
    {
        match self {
            Call::Wrote {
                file: written,
                at,
                bytes,
            } if *written == file => overwrite(old, *at, bytes.as_slice()),
            _ => Ok(()),
        }
    }

    /// Puts this byte into each place that a write of this file wrote.
    pub fn fill(&self, old: &mut Vec<u8>, file: u8, byte: u8) -> Result<(), AllocError>
        ensures { OnOk result (old.new.items ≡ filled_after byte file self.now old.old.items) }
    {
        match self {
            Call::Wrote {
                file: written,
                at,
                bytes,
            } if *written == file => {
                let fill = repeated(*old.allocator(), byte, bytes.len())?;
                overwrite(old, *at, &fill)
            }
            _ => Ok(()),
        }
    }
}
