//! Whatever a script does to a world, what its nodes did is a run by the rules, and so their ledgers agree.
#![tactic(auto)]

ghost use Rattle.world_safety.specs.Certified.{AllWorldsAreCertified};
ghost use Rattle.world_safety.specs.Safe.{EveryWorldIsSafe};
ghost use Rattle.world_safety.specs.AllowedSteps.{
  NodesStandAfterOpenings,
  NodesStandAfterOthers,
  NodesStandAfterSteps,
  NodesStandAfterStops,
  NodesStandAtFirst,
  StepsAreAllowed,
  StepsInPlaceAreAllowed,
};
ghost use Rattle.world_safety.specs.Telling.{AllWorldsAreSafe, EveryTextIsTold};
ghost use Rattle.world_safety.specs.TooMany.{EndsOnlyWhereTooMany, EndsWhereTooMany};
ghost use Rattle.world_safety.specs.Within.{WorldsAreAmongAll};

/// In every world of every script, whatever becomes of its stops at calls of a node's disk, what the nodes
/// did is a run by the rules. The nodes are the members that aren't Byzantine, and no more are Byzantine
/// than the bound of the configuration. Members send to members. The bytes of whatever a node sent, also
/// again after it was started, spell a message that rests on a fact of its sender; a Byzantine member sent
/// any bytes but a message of Raft. Each seal in the world's box is the administrator's, a Byzantine
/// member's, or a node's on the commit statement of a preparation of its own that stands, also where the
/// node was stopped in the event; so a node's signature that the box accepts on a commit statement rests on
/// its preparation of the digest. Each node, running or stopped, has stored what it delivered, and, where
/// no two texts collide, the ledgers agree. All this holds in the worlds between a script's lines, and in
/// all its worlds, the one after each event of a line, also where that event ends the run at the network's
/// limit or its node is stopped in it; what a Byzantine member sends or signs is an event too. The block
/// lines of the text are those of the facts by which these worlds' histories grew in the events that went
/// through; an event in which a node was stopped has a line that tells this alone, and the node doesn't run
/// in the world after it. What a line's reply tells of its node, of a block that is shown, of an entry or a
/// seal of a Byzantine member, or of too many Byzantine members, is so in the last world of that line. The
/// proof of each delivered block is a certificate whose signatures stand in the world's box of seals: at
/// least a quorum of members signed the block's number and hash in one view. A law about the model; it does
/// nothing.
pub fn every_world_is_a_run()
    ensures between_lines { EveryWorldIsSafe }
    ensures after_each_event { AllWorldsAreSafe }
    ensures among { WorldsAreAmongAll }
    ensures text { EveryTextIsTold }
    ensures certified { AllWorldsAreCertified }
{}

/// The run of a script ends because too many members are Byzantine exactly where its first genesis has more
/// Byzantine members than the bound of their number. That line stands within the limits on lines; each line
/// before it is within its limit too, and means nothing or a command other than a genesis. The ending names
/// the line, configuration 0, how many of the members are Byzantine, and the bound. A law about the model;
/// it does nothing.
#[tactic(auto, using(crate::proofs::TooMany::ends_only_where_too_many))]
pub fn ends_too_many()
    ensures only_there { EndsOnlyWhereTooMany }
    ensures there { EndsWhereTooMany }
{}

/// A step of one node, whatever world it is in: a list of entries, one after another. Where the history is a
/// run in which the node stands, which is correct, and no more members are Byzantine than the bound of the
/// configuration; where the event brings requests that have a spelling, or bytes that spell no vote message
/// or one that rests on a fact of its sender, if that is correct; and where the keys sign with what has a
/// spelling: each fact of the step is the node's own, and is allowed by that run and the facts of the entries
/// before it. Each statement that the step signs is the commit statement of what the node prepared by then,
/// and each message goes to members and rests on what the node did by then. A step that is stopped leaves a
/// front of this list, of which it is so as well. It needs no premise on the signatures that the keys accept,
/// nor on collisions of hashes. It is so of the node of the model, whose state is computed from its past, and
/// of a state that was updated in place by entries that fitted, one after another, since nothing stood ahead
/// of its node's height (`node_model::entries_agree`).
///
/// A node stands in a history that has the facts of its past, in their order, and no others of it, none by
/// which it left or entered a view, and on which its past rests: each event was good, each block that it
/// accepted or delivered has a spelling, and each Commit that it signed and each message that it sent rests
/// on what it did. It stands so, in a run, from its first opening on: after each step by the history with the
/// step's facts, after one that was stopped at whatever entry, and the opening behind it, by the history with
/// the facts that were kept, after an opening between two steps, and after whatever another node does. A law
/// about the model; it does nothing.
pub fn steps_are_allowed()
    ensures from_past { StepsAreAllowed }
    ensures in_place { StepsInPlaceAreAllowed }
    ensures at_first { NodesStandAtFirst }
    ensures after_steps { NodesStandAfterSteps }
    ensures after_stops { NodesStandAfterStops }
    ensures after_openings { NodesStandAfterOpenings }
    ensures after_others { NodesStandAfterOthers }
{}
