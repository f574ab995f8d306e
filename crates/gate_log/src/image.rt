/// What a crash makes of each range that was written since its file's last successful sync.
#[derive(Clone, Copy, Debug, PartialEq, Eq)]
pub enum Image {
    /// It holds what was written.
    Keep,
    /// It holds what stood before, and the file has the length of that sync.
    Undo,
    /// It holds this byte in every place. Gaps hold zero bytes.
    Fill(u8),
}
