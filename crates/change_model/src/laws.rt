ghost use Rattle.change_model.specs.Laws.{AnnouncedIsSupported, AscendingAreDifferent, ChoiceIsTheRule, DataReasonsSayValid, EnteredIsSupported, NewsReasonsSayValid, ReportsAreTheirMembers};

/// The function that names the choice of a NewView's reports is the rule (Castro and Liskov 2002, on reports that
/// tell views).
#[tactic(auto, using(crate::proofs::ChoiceLemmas::choice_is))]
pub fn choice_is_the_rule()
    ensures { ChoiceIsTheRule }
{}

/// There is no reason against a ViewData, and none against a NewView that chooses, exactly where it is valid, of the
/// configuration in force, and sent to the collector, or by it.
#[tactic(auto, using(crate::proofs::ValidLemmas::data_reasons_say_valid, crate::proofs::ValidLemmas::news_reasons_say_valid))]
pub fn reasons_say_valid()
    ensures data { DataReasonsSayValid }
    ensures news { NewsReasonsSayValid }
{}

/// Whatever came, the report that is kept of a member is signed by that member.
pub fn reports_are_their_members()
    ensures { ReportsAreTheirMembers }
{}

/// The signers of a NewView that has a spelling are different.
#[tactic(auto, using(crate::proofs::SupportLemmas::ascending_are_different))]
pub fn ascending_are_different()
    ensures { AscendingAreDifferent }
{}

/// A choice that a node announces, or with which it enters by a NewView, is supported by the facts, if the reports of
/// correct members stand as facts.
pub fn choices_are_supported()
    ensures announced { AnnouncedIsSupported }
    ensures entered { EnteredIsSupported }
{}
