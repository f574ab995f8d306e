ghost use Rattle.bft_wal.specs.Counting.{Counted, counted_both, counted_nothing};

use ord_types::Writer;

/// Counts the bytes of a spelled value. A count that rises stands still at its type's end.
#[derive(Drop)]
pub(crate) struct Counting {
    pub(crate) count: usize,
}

impl Writer for Counting {
    ghost took = { λ a b xs. Counted a.count b.count xs };

    ghost at_rest = { λ a. counted_nothing a.count };

    ghost joined = { λ a b c xs ys. counted_both a.count b.count c.count xs ys };

    fn put(&mut self, bytes: &[u8]) {
        self.count = self.count.saturating_add(bytes.len());
    }
}
