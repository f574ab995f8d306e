ghost use Rattle.std.specs.Prelude.{◌≡◌, ℕ, [], ◌∷◌, ◌<◌, ◌≤◌, length, drop, IfOk, OnOk, OnErr};
ghost use Rattle.gate_log.specs.Disk.{now};
ghost use Rattle.gate_log.specs.Calls.{file_of, start, states_from, left_by};

use crate::Image;
use crate::call::Call;
use crate::files::Files;
use ord_types::{Bytes, NoMemory};
use std::alloc::{AllocError, Global};

/// Three files in memory, with all that was done to them.
#[derive(Drop)]
pub struct History {
    // the files at the beginning, all on the disk
    began: Files,
    // the writes and syncs since, the first of them first
    calls: Vec<Call>,
    // what the files read as
    files: Files,
    ghost first_reads: { file_of files 0 ≡ (now (states_from (start began ∷ []) calls.items) 0).reads },
    ghost second_reads: { file_of files 1 ≡ (now (states_from (start began ∷ []) calls.items) 1).reads },
    ghost third_reads: { file_of files 2 ≡ (now (states_from (start began ∷ []) calls.items) 2).reads },
}

impl History {
    ghost use Rattle.gate_log.specs.History.{states, file_at};
    ghost use Rattle.gate_log.specs.Calls.{NoSync};
    ghost use Rattle.gate_log.specs.Renew.{IsSynced};
    ghost use Rattle.gate_log.specs.declared.image.Image.TheVariants.{Fill};
    ghost use Rattle.gate_log.specs.Disk.{Wrote, Synced, synced_file};

    /// A history that begins with these files.
    pub fn new(alloc: Global, files: Files) -> Result<History, NoMemory>
        ensures { IfOk result (λ history. (f : ℕ) → now (states history) f ≡ synced_file (file_of files f)) }
    {
        let began = files.copy()?;
        Ok(History {
            began,
            calls: Vec::new(alloc),
            files,
        })
    }

    /// What a file reads as.
    pub fn reads(&self, file: u8) -> &[u8]
        requires { file < 3 }
        ensures { result.now ≡ (now (states self.now) file).reads }
    {
        self.files.get(file)
    }

    /// Makes a write. Where there is no memory nothing changes.
    pub fn write_at(&mut self, file: u8, at: u64, bytes: &[u8]) -> Result<(), NoMemory>
        requires { file < 3 }
        ensures ok { OnOk result (Wrote file at bytes.now (states self.old) (states self.new)) }
        ensures err { OnErr result (states self.new ≡ states self.old) }
    {
        let copy = Bytes::from_slice(*self.calls.allocator(), bytes)?;
        self.calls.push(Call::Wrote {
            file,
            at,
            bytes: copy,
        })?;
        if self.files.write_at(file, at, bytes).is_err() {
            let _ = self.calls.pop();
            return Err(NoMemory);
        }
        Ok(())
    }

    /// Makes a sync. Where there is no memory nothing changes.
    pub fn sync(&mut self, file: u8) -> Result<(), NoMemory>
        requires { file < 3 }
        ensures ok { OnOk result (Synced file (states self.old) (states self.new)) }
        ensures err { OnErr result (states self.new ≡ states self.old) }
    {
        self.calls.push(Call::Synced { file })?;
        Ok(())
    }

    /// The image that a crash makes of a file.
    pub fn image(&self, file: u8, image: Image) -> Result<Vec<u8>, NoMemory>
        requires { file < 3 }
        ensures { IfOk result (λ bytes. bytes.items ≡ left_by image (now (states self.now) file)) }
    {
        match image {
            Image::Keep => {
                let bytes = Vec::from_slice(*self.calls.allocator(), self.files.get(file))?;
                Ok(bytes)
            }
            Image::Undo => {
                let bytes = self.kept(file)?;
                Ok(bytes)
            }
            Image::Fill(byte) => {
                let bytes = self.filled(file, byte)?;
                Ok(bytes)
            }
        }
    }

    // How many calls were made up to the last sync of a file, that one included.
    fn last_sync(&self, file: u8) -> usize
        ensures within { result ≤ length self.now.calls.items }
        ensures synced { IsSynced (file_at self.now file result) }
        ensures last { NoSync file (drop result self.now.calls.items) }
    {
        let mut end = self.calls.len();
        while end > 0 {
            if self.calls[end - 1].is_sync(file) {
                return end;
            }
            end -= 1;
        }
        end
    }

    // The bytes of a file at its last sync: what was written up to it is written again.
    fn kept(&self, file: u8) -> Result<Vec<u8>, AllocError>
        requires { file < 3 }
        ensures { IfOk result (λ bytes. bytes.items ≡ (now (states self.now) file).kept) }
    {
        let mut bytes = Vec::from_slice(*self.calls.allocator(), self.began.get(file))?;
        for call in &self.calls[..self.last_sync(file)] {
            call.write_again(&mut bytes, file)?;
        }
        Ok(bytes)
    }

    // The bytes of a file, with a byte in each place that was written since its last sync.
    fn filled(&self, file: u8, byte: u8) -> Result<Vec<u8>, AllocError>
        requires { file < 3 }
        ensures { IfOk result (λ bytes. bytes.items ≡ left_by (Fill byte) (now (states self.now) file)) }
    {
        let mut bytes = Vec::from_slice(*self.calls.allocator(), self.files.get(file))?;
        for call in &self.calls[self.last_sync(file)..] {
            call.fill(&mut bytes, file, byte)?;
        }
        Ok(bytes)
    }
}
