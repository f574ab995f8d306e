ghost use Rattle.std.specs.Prelude.{◌≡◌, ℕ, ◌<◌, [], ◌∷◌, length, IsTrue, OnOk};
ghost use Rattle.ord_types.specs.Causes.{HasCause};
ghost use Rattle.gate_log.specs.Disk.{now, synced_file, IsLeft, overwritten};
ghost use Rattle.gate_log.specs.Runs.{Leaves};
ghost use Rattle.gate_log.specs.Renew.{IsSynced};

use crate::Disk;
use ord_types::Failed;

// Writes bytes to a file that is all on the disk, and syncs them.
pub fn write_through<D: Disk>(disk: &mut D, file: u8, at: u64, bytes: &[u8]) -> Result<(), Failed>
    requires file { file < 3 }
    requires synced { IsTrue (D.tells disk.old) → IsSynced (now (D.moments disk.old) file) }
    ensures written { IsTrue (D.tells disk.old) → OnOk result
        (now (D.moments disk.new) file ≡ synced_file (overwritten at bytes.now (now (D.moments disk.old) file).reads)) }
    // a crash leaves what one that tears the write leaves
    ensures any_moment { IsTrue (D.tells disk.old) → Leaves file
        (IsLeft (now (D.moments disk.old) file).reads ((at, length bytes.now) ∷ [])) (D.moments disk.old) (D.moments disk.new) }
    ensures tells { D.tells disk.new ≡ D.tells disk.old }
    ensures cause { HasCause (D.faults disk.old) (D.faults disk.new) result }
{
    disk.write_at(file, at, bytes)?;
    disk.sync(file)?;
    Ok(())
}
