ghost use Rattle.bft_node.specs.Laws.{KeptStoreOpens, KeptStoreStays, RunsAreWithin, RunsGoOn};
ghost use Rattle.bft_node.specs.Recovering.{CrashesKeep, EmptyFilesKeep, HoldsOn, OpeningsKeep};
ghost use Rattle.bft_node.specs.Standing.{
  BeginsStanding,
  DeedsKeepStanding,
  StepsHaveDeeds,
  StepsKeepStanding,
};

/// A node whose deeds are held finds at an opening what it had, but for the vote messages that it kept: so it
/// does on the genesis block, after each deed of a node that stands so, and after each front of a step. A law
/// about the definitions; it does nothing.
pub fn deeds_are_found()
    ensures first { BeginsStanding }
    ensures deeds { DeedsKeepStanding }
    ensures done { StepsHaveDeeds }
    ensures steps { StepsKeepStanding }
{}

/// Empty files keep a node that has done nothing. What a node holds on a disk is kept by each crash of it, and is
/// held until one of its files is written to, and where more signatures are accepted. What every crash of a disk
/// keeps is kept by every crash while a node is opened on it. A law about the definitions; it does nothing.
pub fn nodes_are_found()
    ensures empty { EmptyFilesKeep }
    ensures crash { CrashesKeep }
    ensures on { HoldsOn }
    ensures opening { OpeningsKeep }
{}

/// A kept store opens to what it holds at every crash until one of its files is written to again. Runs in
/// each of which every crash opens to what a front of some deeds leaves make one such run of all the deeds. A
/// law about the model; it does nothing.
pub fn stored_deeds_stand()
    ensures crash { KeptStoreOpens }
    ensures others { KeptStoreStays }
    ensures one_after_another { RunsGoOn }
    ensures more { RunsAreWithin }
{}
