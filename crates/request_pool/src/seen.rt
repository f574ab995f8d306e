//! An index beside the window, for look-ups that don't go through it.
ghost use Rattle.std.specs.Prelude.{◌≡◌, ◌+◌, ◌<◌, ◌≤◌, [], length, nat_le, IfOk};
ghost use Rattle.indexmap.specs.IndexSet.{insert_all, insert_key};
ghost use Rattle.request_pool.specs.Waiting.{contains_id, id_eq};

use indexmap::IndexSet;
use ord_types::{NoMemory, ReqId};
use std::alloc::Global;
use std::marker::Model;

/// So many ids it may hold.
const ROOM: usize = 2000;

/// A set of at most 2,000 ids. Room for them is made at first.
#[derive(Drop)]
pub struct SeenIds {
    ids: IndexSet<ReqId>,
}

impl Model for SeenIds {
    ghost use Rattle.std.specs.Prelude.{◌+◌, ◌≤◌, length};
    ghost use Rattle.std.specs.Prelude.{List as Items};
    ghost use Rattle.indexmap.specs.IndexSet.{spare};
    ghost use Rattle.ord_types.specs.declared.values.ReqId.{ReqId};

    ghost Value = { Items ReqId };

    ghost view = { λ seen. seen.ids.keys };

    ghost invariant = { λ seen. (2000 ≤ length seen.ids.keys + spare seen.ids) × (length seen.ids.keys ≤ 2000) };
}

impl SeenIds {
    /// No ids.
    pub fn new(alloc: Global) -> Result<Self, NoMemory>
        ensures { IfOk result (λ seen. seen ≡ []) }
    {
        Ok(SeenIds {
            ids: IndexSet::with_capacity(alloc, ROOM)?,
        })
    }

    /// Whether the id is one of them.
    pub fn has_id(&self, id: &ReqId) -> bool
        ensures { result ≡ contains_id id.now self.now }
    {
        self.ids.contains(id)
    }

    /// Whether no other id has room.
    pub fn is_full(&self) -> bool
        ensures { result ≡ nat_le 2000 (length self.now) }
    {
        ROOM <= self.ids.len()
    }

    /// Forgets all.
    pub fn clear(&mut self)
        ensures { self.new ≡ [] }
    {
        self.ids.clear();
    }

    /// Adds an id, where it isn't there.
    pub fn add(&mut self, id: &ReqId)
        requires { length self.old < 2000 }
        ensures { self.new ≡ insert_key id_eq self.old id.now }
    {
        if !self.ids.contains(id) {
            self.ids.insert(*id).unwrap();
        }
    }

    /// Adds these ids, where they aren't there.
    pub fn add_all(&mut self, ids: &[ReqId])
        requires { length self.old + length ids.now ≤ 2000 }
        ensures { self.new ≡ insert_all id_eq self.old ids.now }
    {
        for id in ids {
            self.add(id);
        }
    }
}
