//! The commands that need no network.
ghost use Rattle.std.specs.Prelude.{◌≡◌, ◌≢◌, ◌≤◌, ◌⊎◌, ◌↔◌, [], IsSome, List as Items, map, string_bytes};
ghost use Rattle.std.specs.List.{AllByRecursion};
ghost use Rattle.ord_types.specs.Causes.{Rose};
ghost use Rattle.ord_types.specs.Told.{told};
ghost use Rattle.script_play.specs.Statuses.{IsOwn};
ghost use Rattle.world_model.specs.Worlds.{Outcome};
ghost use Rattle.world_safety.specs.Certified.{IsCertifiedIn};
ghost use Rattle.world_safety.specs.Safe.{IsSafe};
ghost use Rattle.world_safety.specs.Within.{all_worlds_of};
ghost use Rattle.orderer.specs.Playing.{PlaysScript};
ghost use Rattle.orderer.specs.Words.{asked};
ghost use Rattle.orderer.specs.declared.commands.Asked.TheVariants as asked_for;

use crate::commands::{Asked, judged};
use bft_node::OwnNodes;
use ord_types::{Sink, Source};
use script_play::{fault_status, play, status};
use std::alloc::Global;
use world_run::Runner;

/// Plays the script of a source. The answer is the exit status.
fn run_world<S: Source, K: Sink>(alloc: Global, source: &mut S, out: &mut K) -> u8
    ensures plays { IsSome (S.left source.old) → PlaysScript (told (S.left source.old)) (K.content out.old) (K.content out.new) result }
    ensures all_read { result ≡ 0 → IsSome (S.left source.old) → told (S.left source.new) ≡ [] }
    ensures read_fault { result ≡ 6 → Rose (S.faults source.old) (S.faults source.new) }
    ensures write_fault { result ≡ 7 → Rose (K.faults out.old) (K.faults out.new) }
    ensures no_other { IsOwn result ⊎ ((result ≡ 6) ⊎ ((result ≡ 7) ⊎ (result ≡ 8))) }
    ensures source_count { S.faults source.old ≤ S.faults source.new }
    ensures out_count { K.faults out.old ≤ K.faults out.new }
{
    let mut runner = Runner::new(alloc, OwnNodes::new(alloc));
    match play(alloc, &mut runner, source, out) {
        Ok(ending) => status(ending),
        Err(fault) => fault_status(fault),
    }
}

/// Runs the command of these words. `world FILE` plays the script of the source. What it writes is a function of the script's
/// bytes and of what became of the stops at calls of the nodes' disks, and of the bytes alone where no line is `stop-at`. The
/// answer is the exit status.
pub fn run_offline<S: Source, K: Sink>(
    alloc: Global,
    words: &[String],
    source: &mut S,
    out: &mut K,
) -> u8
    // The words are judged first, and other words than those of `world` touch nothing.
    ensures unknown { (result ≡ 2) ↔ (asked (map string_bytes words.now) ≡ asked_for.Unknown) }
    ensures later { asked (map string_bytes words.now) ≡ asked_for.Later → result ≡ 17 }
    ensures source_stays { asked (map string_bytes words.now) ≢ asked_for.World → source.new ≡ source.old }
    ensures out_stays { asked (map string_bytes words.now) ≢ asked_for.World → out.new ≡ out.old }

    // There are outcomes of the events of nodes whose disks were armed, none where no line is `stop-at`, such that under them
    // statuses 0, 3, 5, 9 and 17 come exactly as the script ends, with its whole text written, and whatever comes, a front of the
    // text is written.
    ensures plays { asked (map string_bytes words.now) ≡ asked_for.World → IsSome (S.left source.old) →
        PlaysScript (told (S.left source.old)) (K.content out.old) (K.content out.new) result }
    ensures all_read { result ≡ 0 → IsSome (S.left source.old) → told (S.left source.new) ≡ [] }

    // In every world of the script, the one after each of its events, whatever becomes of its stops, at most f of the members are
    // Byzantine; what the others did is a run by the rules, every message and every signature of theirs rests on what its maker
    // did, and, where no two texts collide, the ledgers agree.
    ensures safe { asked (map string_bytes words.now) ≡ asked_for.World → IsSome (S.left source.old) → (outcomes : Items Outcome) →
        AllByRecursion IsSafe (all_worlds_of outcomes (told (S.left source.old))) }
    // Each delivered block has a certificate: a quorum's signatures, of one view, each of them accepted.
    ensures certified { asked (map string_bytes words.now) ≡ asked_for.World → IsSome (S.left source.old) → (outcomes : Items Outcome) →
        AllByRecursion IsCertifiedIn (all_worlds_of outcomes (told (S.left source.old))) }

    // 6, 7 and 8 come only after a fault of the source, of the sink, and for want of memory. Without a fault the script decides,
    // or memory ran out.
    ensures read_fault { result ≡ 6 → Rose (S.faults source.old) (S.faults source.new) }
    ensures write_fault { result ≡ 7 → Rose (K.faults out.old) (K.faults out.new) }
    ensures no_other { IsOwn result ⊎ ((result ≡ 2) ⊎ ((result ≡ 6) ⊎ ((result ≡ 7) ⊎ (result ≡ 8)))) }
    ensures complete { asked (map string_bytes words.now) ≡ asked_for.World →
        ¬ Rose (S.faults source.old) (S.faults source.new) → ¬ Rose (K.faults out.old) (K.faults out.new) → IsOwn result ⊎ (result ≡ 8) }
    ensures source_count { S.faults source.old ≤ S.faults source.new }
    ensures out_count { K.faults out.old ≤ K.faults out.new }
{
    match judged(words) {
        Asked::World => run_world(alloc, source, out),
        Asked::Later => 17,
        Asked::Unknown => 2,
    }
}
