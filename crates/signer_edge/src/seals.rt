use ord_types::Bytes;

/// An entry of a box: who signed which statement.
#[derive(Drop)]
pub struct Seal {
    pub signer: u32,
    pub statement: Bytes,
}
