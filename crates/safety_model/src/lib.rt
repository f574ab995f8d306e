//! The safety theorem of the ordering service, on lists of facts (Castro and Liskov 2002).
#![tactic(auto)]

ghost use Rattle.safety_model.specs.Choosing.{ChoicesAreSupported};
ghost use Rattle.safety_model.specs.Safety.{RunsAgree};
ghost use Rattle.safety_model.specs.Views.{AcceptancesFall, CertifiedIsCarriedOn, NothingFalls, ReportsStayTrue};

mod fact;
mod history;
mod log;
mod reports;
#[cfg(test)]
mod tests;
#[cfg(test)]
mod view_tests;
mod widths;

pub use fact::{Fact, Telling};
pub use log::{FactLog, FactRefusal};
pub use reports::tells;

/// Whatever correct nodes did by the rules, in whatever order, with Byzantine members up to the bound:
/// their ledgers are prefixes of one chain, whose blocks are lawful and proved. This is the theorem over all
/// lists of facts; the call does nothing.
#[tactic(auto, using(crate::proofs::Agreeing::runs_agree))]
pub fn agreement()
    ensures { RunsAgree }
{}

/// Whatever is done later, no node's height, view or left view falls within a configuration. The call does
/// nothing.
#[tactic(auto, using(crate::proofs::ViewLaws::nothing_falls))]
pub fn nothing_falls()
    ensures { NothingFalls }
{}

/// A node's acceptances at a number, the newest first, are of falling views. The call does nothing.
#[tactic(auto, using(crate::proofs::ViewLaws::acceptances_fall))]
pub fn acceptances_fall()
    ensures { AcceptancesFall }
{}

/// What a member reported stays true of all views below the report's target. The call does nothing.
#[tactic(auto, using(crate::proofs::ViewLaws::reports_stay_true))]
pub fn reports_stay_true()
    ensures { ReportsStayTrue }
{}

/// A digest that a quorum prepared is all that correct members accept at its number in later views (Castro and
/// Liskov 2002). The call does nothing.
#[tactic(auto, using(crate::proofs::ViewLaws::certified_is_carried_on))]
pub fn certified_is_carried_on()
    ensures { CertifiedIsCarriedOn }
{}

/// What the reports of one message choose is supported by the facts, if correct members' reports stand. The
/// call does nothing.
#[tactic(auto, using(crate::proofs::Chosen::choices_supported))]
pub fn choices_are_supported()
    ensures { ChoicesAreSupported }
{}
