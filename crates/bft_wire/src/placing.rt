ghost use Rattle.std.specs.Prelude.{◌≡◌, refl};
ghost use Rattle.std.proofs.Common.{◌∙◌};
ghost use Rattle.bft_wire.specs.Placing.{Counted, IsCount, Placed, adds_both, adds_nothing, placed_both, placed_nothing};

use ord_types::Writer;

/// Counts the bytes of a spelled value. A count that rises stands still at its type's end.
#[derive(Drop)]
pub(crate) struct Counting {
    pub(crate) count: usize,
}

impl Writer for Counting {
    ghost took = { λ a b xs. Counted a.count b.count xs };

    ghost at_rest = { λ a. adds_nothing (IsCount a.count) };

    ghost joined = { λ a b c xs ys. adds_both (IsCount a.count) (IsCount b.count) (IsCount c.count) xs ys };

    fn put(&mut self, bytes: &[u8]) {
        self.count = self.count.saturating_add(bytes.len());
    }
}

/// Writes a spelled value over the bytes of a buffer, from a place on. What does not fit isn't written.
#[derive(Drop)]
pub(crate) struct Placing<'a> {
    pub(crate) out: &'a mut [u8],
    pub(crate) place: usize,
}

impl<'a> Writer for Placing<'a> {
    ghost took = { λ a b xs. (b.out.ghost_name ≡ a.out.ghost_name)
        × Placed a.out.now a.place b.out.now b.place xs };

    ghost at_rest = { λ a. (refl, placed_nothing a.out.now a.place) };

    ghost joined = { λ a b c xs ys h k. (k.0 ∙ h.0, placed_both a.out.now b.out.now c.out.now a.place b.place c.place xs ys h.1 k.1) };

    fn put(&mut self, bytes: &[u8]) {
        if self.place <= self.out.len() && bytes.len() <= self.out.len() - self.place {
            let end = self.place + bytes.len();
            self.out[self.place..end].copy_from_slice(bytes);
            self.place = end;
        }
    }
}
