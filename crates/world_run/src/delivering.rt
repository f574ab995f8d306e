//! Ticks, and deliveries of what was sent.
ghost use Rattle.std.specs.Prelude.{
  ◌≡◌,
  ◌<◌,
  ◌+◌,
  ◌-◌,
  ◌^◌,
  All,
  IfNone,
  IfOk,
  IfSome,
  List as Items,
  OnOk,
  Some,
  None,
  slice_get,
  vec_len,
};
ghost use Rattle.script.specs.Commands.{IsRange};
ghost use Rattle.script_play.specs.Turns.{EndsTurn};
ghost use Rattle.world_model.specs.Cores.{core_setting};
ghost use Rattle.world_model.specs.Turns.{deliver_turn, deliveries, delivery, flush_turn, ticks};
ghost use Rattle.world_model.specs.Worlds as worlds;
ghost use Rattle.world_model.specs.Worlds.{Outcome};
ghost use Rattle.bft_node.specs.Lodgings.{Lodging};
ghost use Rattle.world_run.specs.Entries.{entry_of};

use crate::network::Entry;
use crate::texts::{put_deliver, put_flush, put_refused, put_tick};
use crate::world::World;
use bft_node::Nodes;
use ord_types::{Copied, List, NoMemory};
use script::Range;
use script_play::Ending;

/// How many entries a flush delivers at most.
const MOST_FLUSHED: u64 = 10_000;

/// What became of a range of entries.
enum Delivered {
    /// How many are delivered so far.
    All(u64),
    /// The line ends: an entry isn't there, or the receiver was stopped.
    Halted,
    Ended(Ending),
}

fn is_named(only: &Option<List<u32>>, entry: &Entry) -> bool
    ensures { result ≡ worlds.is_named only.now (entry_of entry.now) }
{
    match only {
        None => true,
        Some(ids) => {
            let ids = ids.as_slice();
            ids.contains(&entry.from) && ids.contains(&entry.to)
        }
    }
}

impl World {
    ghost use Rattle.world_run.specs.Going.{DeliversBy, EndsDelivery, Plays};
    ghost use Rattle.world_run.specs.Mapped.{world_of};
    ghost use Rattle.world_run.specs.Sound.{IsSound};

    /// So many ticks of a node that runs, or as many as come before it is stopped.
    pub(crate) fn ticks<N: Nodes>(
        &mut self,
        nodes: &mut N,
        id: u32,
        count: u32,
    ) -> Result<Option<Ending>, NoMemory>
        requires sound { IsSound (N.at nodes.old) self.old }
        ensures sound { OnOk result (IsSound (N.at nodes.new) self.new) }
        ensures ends { IfOk result (λ ending. IfSome ending EndsTurn) }
        ensures plays { IfOk result (λ ending. Plays (N.at nodes.old) (N.at nodes.new) self.old self.new
            (ticks core_setting self.old.outside.number id count) ending) }
        ensures number { OnOk result (self.new.outside.number ≡ self.old.outside.number) }
    {
        for _tick in 0..count {
            let Some(place) = self.running(id) else {
                return Ok(None);
            };
            if let Some(ending) = self.tick_at(nodes, place)? {
                return Ok(Some(ending));
            }
        }
        if self.is_running(id) {
            put_tick(&mut self.outside.text, self.outside.number, id)?;
        }
        Ok(None)
    }

    /// The entry at this place, counted from 0, comes to its receiver. Where that doesn't run, it is lost,
    /// and has not come.
    fn deliver_entry<N: Nodes>(
        &mut self,
        nodes: &mut N,
        at: usize,
    ) -> Result<Option<Ending>, NoMemory>
        requires sound { IsSound (N.at nodes.old) self.old }
        requires there { at < vec_len self.old.outside.network }
        ensures sound { OnOk result (IsSound (N.at nodes.new) self.new) }
        ensures ends { IfOk result (λ ending. IfSome ending EndsTurn) }
        ensures plays { IfOk result (λ ending. (entry : worlds.Entry) (lodged : Lodging)
            (later : Items Outcome) → slice_get (world_of lodged self.old later).network at ≡ Some entry
            → Plays (N.at nodes.old) (N.at nodes.new) self.old self.new
            (delivery core_setting self.old.outside.number at entry) ending) }
        ensures number { OnOk result (self.new.outside.number ≡ self.old.outside.number) }
    {
        let to = self.outside.network[at].to;
        let Some(place) = self.running(to) else {
            return Ok(None);
        };
        let entry = &mut self.outside.network[at];
        entry.came = true;
        let from = entry.from;
        let bytes = entry.bytes.as_ref().copy()?;
        self.take_at(nodes, place, from, bytes)
    }

    /// The place of the entry with this number.
    pub(crate) fn place_of_entry(&self, number: u64) -> Option<usize>
        ensures none { (lodged : Lodging) (later : Items Outcome)
            → IfNone result (worlds.entry number (world_of lodged self.now later) ≡ None) }
        ensures some { IfSome result (λ at. (at < vec_len self.now.outside.network) × (number ≡ at + 1)) }
    {
        let at = number.checked_sub(1)?;
        if at < self.outside.network.len() as u64 {
            Some(at as usize)
        } else {
            None
        }
    }

    /// Delivers the entry at this place, after so many others. A lost one isn't counted; where the receiver
    /// is stopped in it, the line ends.
    fn deliver_next<N: Nodes>(
        &mut self,
        nodes: &mut N,
        at: usize,
        so_far: u64,
    ) -> Result<Delivered, NoMemory>
        requires sound { IsSound (N.at nodes.old) self.old }
        requires there { at < vec_len self.old.outside.network }
        ensures sound { OnOk result (IsSound (N.at nodes.new) self.new) }
        ensures ends { IfOk result EndsDelivery }
        ensures delivers { IfOk result (DeliversBy (N.at nodes.old) (N.at nodes.new) self.old self.new
            (deliveries core_setting self.old.outside.number 1 (at + 1) so_far)) }
        ensures number { OnOk result (self.new.outside.number ≡ self.old.outside.number) }
    {
        let to = self.outside.network[at].to;
        if !self.is_running(to) {
            return Ok(Delivered::All(so_far));
        }
        let count = so_far.checked_add(1).ok_or(NoMemory)?;
        if let Some(ending) = self.deliver_entry(nodes, at)? {
            return Ok(Delivered::Ended(ending));
        }
        if self.is_running(to) {
            Ok(Delivered::All(count))
        } else {
            Ok(Delivered::Halted)
        }
    }

    /// Delivers the entries with these numbers, after so many others. A number that isn't in the network
    /// refuses the line.
    fn deliver_range<N: Nodes>(
        &mut self,
        nodes: &mut N,
        range: Range,
        so_far: u64,
    ) -> Result<Delivered, NoMemory>
        requires sound { IsSound (N.at nodes.old) self.old }
        requires range { range.last < 2 ^ 64 - 1 }
        ensures sound { OnOk result (IsSound (N.at nodes.new) self.new) }
        ensures ends { IfOk result EndsDelivery }
        ensures delivers { IfOk result (DeliversBy (N.at nodes.old) (N.at nodes.new) self.old self.new
            (deliveries core_setting self.old.outside.number (range.last + 1 - range.first) range.first
            so_far)) }
        ensures number { OnOk result (self.new.outside.number ≡ self.old.outside.number) }
    {
        let mut count = so_far;
        for number in range.first..range.last + 1 {
            let Some(at) = self.place_of_entry(number) else {
                put_refused(&mut self.outside.text, self.outside.number, "no entry")?;
                return Ok(Delivered::Halted);
            };
            match self.deliver_next(nodes, at, count)? {
                Delivered::All(sum) => count = sum,
                other => return Ok(other),
            }
        }
        Ok(Delivered::All(count))
    }

    /// Delivers these entries, in this order.
    pub(crate) fn deliver<N: Nodes>(
        &mut self,
        nodes: &mut N,
        ranges: &[Range],
    ) -> Result<Option<Ending>, NoMemory>
        requires sound { IsSound (N.at nodes.old) self.old }
        requires ranges { All IsRange ranges.now }
        ensures sound { OnOk result (IsSound (N.at nodes.new) self.new) }
        ensures ends { IfOk result (λ ending. IfSome ending EndsTurn) }
        ensures plays { IfOk result (λ ending. Plays (N.at nodes.old) (N.at nodes.new) self.old self.new
            (deliver_turn core_setting self.old.outside.number ranges.now 0) ending) }
        ensures number { OnOk result (self.new.outside.number ≡ self.old.outside.number) }
    {
        let mut count = 0;
        for range in ranges {
            match self.deliver_range(nodes, *range, count)? {
                Delivered::All(sum) => count = sum,
                Delivered::Halted => return Ok(None),
                Delivered::Ended(ending) => return Ok(Some(ending)),
            }
        }
        put_deliver(&mut self.outside.text, self.outside.number, count)?;
        Ok(None)
    }

    /// Whether an entry waits for its receiver.
    fn waits(&self, only: &Option<List<u32>>, entry: &Entry) -> bool
        ensures { (lodged : Lodging) (later : Items Outcome)
            → result ≡ worlds.is_waiting (world_of lodged self.now later).nodes only.now
            (entry_of entry.now) }
    {
        !entry.came && is_named(only, entry) && self.is_running(entry.to)
    }

    /// Whether the entry at this place waits for its receiver.
    fn is_waiting(&self, only: &Option<List<u32>>, at: usize) -> bool
        requires { at < vec_len self.now.outside.network }
        ensures { (lodged : Lodging) (later : Items Outcome) (entry : worlds.Entry)
            → slice_get (world_of lodged self.now later).network at ≡ Some entry
            → result ≡ worlds.is_waiting (world_of lodged self.now later).nodes only.now entry }
    {
        self.waits(only, &self.outside.network[at])
    }

    /// Passes over the entries that have come, and those whose receivers don't run.
    fn pass_over(&mut self)
        ensures config { self.new.config ≡ self.old.config }
        ensures byzantine { self.new.byzantine ≡ self.old.byzantine }
        ensures members { self.new.members ≡ self.old.members }
        ensures outside { self.new.outside ≡ self.old.outside }
    {
        while self.first_waiting < self.outside.network.len()
            && !self.is_waiting(&None, self.first_waiting)
        {
            self.first_waiting += 1;
        }
    }

    /// Delivers the entries that wait, between these ids alone where there are some. It goes on where a
    /// receiver is stopped, and counts that entry.
    pub(crate) fn flush<N: Nodes>(
        &mut self,
        nodes: &mut N,
        only: &Option<List<u32>>,
    ) -> Result<Option<Ending>, NoMemory>
        requires sound { IsSound (N.at nodes.old) self.old }
        ensures sound { OnOk result (IsSound (N.at nodes.new) self.new) }
        ensures ends { IfOk result (λ ending. IfSome ending EndsTurn) }
        ensures plays { IfOk result (λ ending. Plays (N.at nodes.old) (N.at nodes.new) self.old self.new
            (flush_turn core_setting self.old.outside.number only.now 10000 0) ending) }
        ensures number { OnOk result (self.new.outside.number ≡ self.old.outside.number) }
    {
        self.pass_over();
        let mut at = self.first_waiting;
        let mut count = 0;
        while count < MOST_FLUSHED && at < self.outside.network.len() {
            if self.is_waiting(only, at) {
                if let Some(ending) = self.deliver_entry(nodes, at)? {
                    return Ok(Some(ending));
                }
                count += 1;
            }
            at += 1;
        }
        put_flush(&mut self.outside.text, self.outside.number, count)?;
        Ok(None)
    }
}
