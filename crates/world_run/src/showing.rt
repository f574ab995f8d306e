//! What a world says of itself: answers of pools, blocks, closing lines and refusals.
ghost use Rattle.std.specs.Prelude.{
  ◌≡◌,
  ◌++◌,
  IfOk,
  IfSome,
  List as Items,
  OnOk,
  Some,
  None,
  codes,
  string_bytes,
};
ghost use Rattle.safety_model.specs.Blocks.{Config as SomeConfig};
ghost use Rattle.script_play.specs.Turns.{EndsTurn};
ghost use Rattle.world_model.specs.Cores.{core_keeping, core_setting};
ghost use Rattle.world_model.specs.Says.{refuses};
ghost use Rattle.world_model.specs.Texts.{closing_line};
ghost use Rattle.world_model.specs.Turns.{absence, closing_of, closing_of_member, show_turn, submit_turn};
ghost use Rattle.world_model.specs.Worlds as worlds;
ghost use Rattle.world_model.specs.Worlds.{Outcome};
ghost use Rattle.bft_node.specs.Lodgings.{Lodging, ReadsAt};
ghost use Rattle.bft_node.specs.declared.lodged.Lodged.{Lodged};
ghost use Rattle.world_run.specs.Members.{node_of};
ghost use Rattle.world_run.specs.declared.member.Member.{Member as SomeMember};

use crate::pool::submit;
use crate::texts::{
    put_answer, put_byzantine, put_closed, put_node, put_refused, put_sent, put_show,
};
use crate::world::{Whereabouts, World};
use bft_node::{Node, Nodes};
use ord_types::NoMemory;
use script_play::Ending;
use std::alloc::AllocError;

/// The closing line of a node that runs.
fn put_running(text: &mut String, id: u32, node: &Node) -> Result<(), AllocError>
    ensures { OnOk result ((c : SomeConfig) (at : Lodging) (l : Lodged) (member : SomeMember)
        → member.id ≡ id → at id ≡ Some l → l.node ≡ node.now → string_bytes text.new
        ≡ string_bytes text.old ++ closing_line core_keeping.look (node_of c at member)) }
{
    let place = node.ledger().place();
    let view = node.view();
    put_node(
        text,
        id,
        place.height,
        place.config.number,
        view.view(),
        view.left(),
    )
}

impl World {
    ghost use Rattle.world_run.specs.AtPlaces.{AtPlace, HasMember};
    ghost use Rattle.world_run.specs.Going.{Says, SaysAt};
    ghost use Rattle.world_run.specs.Mapped.{world_of};
    ghost use Rattle.world_run.specs.Sound.{IsSound, KeepsNodes};
    ghost use Rattle.world_run.specs.Whereabouts.{whereabouts_of};

    /// Refuses a line for this reason.
    pub(crate) fn refuse(&mut self, reason: &str) -> Result<Option<Ending>, NoMemory>
        ensures ends { IfOk result (λ ending. IfSome ending EndsTurn) }
        ensures says { IfOk result (Says self.old self.new (refuses self.old.outside.number reason.now)) }
        ensures keeps { OnOk result (KeepsNodes self.old self.new) }
    {
        put_refused(&mut self.outside.text, self.outside.number, reason)?;
        Ok(None)
    }

    /// Refuses a line about a node that isn't in the world, or about a Byzantine member.
    pub(crate) fn refuse_absent(&mut self, id: u32) -> Result<Option<Ending>, NoMemory>
        ensures ends { IfOk result (λ ending. IfSome ending EndsTurn) }
        ensures says { IfOk result (Says self.old self.new (λ w. refuses self.old.outside.number
            (absence w id) w)) }
        ensures keeps { OnOk result (KeepsNodes self.old self.new) }
    {
        if self.config.members.as_slice().contains(&id) {
            self.refuse("no core")
        } else {
            self.refuse("unknown node")
        }
    }

    /// Submits bytes to a node's pool, by a line that begins with this word.
    pub(crate) fn submit(
        &mut self,
        to: u32,
        place: usize,
        word: &str,
        bytes: &[u8],
    ) -> Result<(), NoMemory>
        requires { whereabouts_of to self.old.members.items ≡ Whereabouts.Running place }
        ensures turned { OnOk result ((lodged : Lodging)
            → AtPlace self.old place (λ member. SaysAt lodged self.old self.new
            (λ w. submit_turn self.old.outside.number word.now w (node_of self.old.config lodged member)
            bytes.now) None)) }
        ensures keeps { OnOk result (KeepsNodes self.old self.new) }
    {
        let alloc = self.outside.alloc;
        let member = &mut self.members[place];
        let answer = submit(alloc, &mut member.pool, bytes)?;
        put_answer(
            &mut self.outside.text,
            self.outside.number,
            word,
            to,
            answer,
        )?;
        Ok(())
    }

    /// Shows the block of this number in a node's ledger.
    pub(crate) fn show<N: Nodes>(
        &mut self,
        nodes: &mut N,
        place: usize,
        number: u64,
    ) -> Result<(), NoMemory>
        requires sound { IsSound (N.at nodes.old) self.old }
        requires there { HasMember self.old place }
        ensures turned { OnOk result (AtPlace self.old place (λ member. SaysAt (N.at nodes.old) self.old
            self.new (λ w. show_turn self.old.outside.number w (node_of self.old.config (N.at nodes.old)
            member) number) None)) }
        ensures reads { OnOk result (AtPlace self.old place (λ member. ReadsAt (N.at nodes.old)
            (N.at nodes.new) member.id)) }
        ensures keeps { OnOk result (KeepsNodes self.old self.new) }
    {
        let id = self.members[place].id;
        let line = self.outside.number;
        let text = &mut self.outside.text;
        match nodes.get(id, number) {
            Ok(None) => put_refused(text, line, "no block")?,
            Ok(Some((block, proof))) => put_show(text, line, id, &block, &proof)?,
            Err(_) => return Err(NoMemory),
        }
        Ok(())
    }

    /// The closing line of a member.
    fn closing_of<N: Nodes>(&self, nodes: &N, id: u32, text: &mut String) -> Result<(), AllocError>
        requires { IsSound (N.at nodes.now) self.now }
        ensures { OnOk result ((later : Items Outcome) → string_bytes text.new ≡ string_bytes text.old
            ++ closing_of_member core_setting id
            (worlds.node_at id (world_of (N.at nodes.now) self.now later).nodes)) }
    {
        match self.whereabouts(id) {
            Whereabouts::Absent => put_byzantine(text, id),
            Whereabouts::Stopped(_place) => put_closed(text, id),
            Whereabouts::Running(_place) => put_running(text, id, nodes.node(id)),
        }
    }

    /// The closing lines, by the members' order.
    #[tactic(auto, unfolding(world_model::specs::Turns::closing_of))]
    pub(crate) fn closing<N: Nodes>(&self, nodes: &N, text: &mut String) -> Result<(), NoMemory>
        requires { IsSound (N.at nodes.now) self.now }
        ensures { OnOk result ((later : Items Outcome) → string_bytes text.new ≡ string_bytes text.old
            ++ closing_of core_setting (Some (world_of (N.at nodes.now) self.now later))) }
    {
        for id in self.config.members.as_slice() {
            self.closing_of(nodes, *id, text)?;
        }
        put_sent(text, self.outside.network.len())?;
        Ok(())
    }
}
