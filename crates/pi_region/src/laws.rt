//! What the way back along the trail keeps. Each law is the contract of a function that does nothing.
ghost use Rattle.pi_region.specs.Since.{SinceByWords, SinceByPush, SinceByOther, SinceByIt};
ghost use Rattle.pi_region.specs.Back.{AdvancesFromItself, AdvancesByWords, AdvancesThrough, BackInTwoParts};

/// Changes that can each be taken back can be taken back together, whatever stands between; and what was there at an
/// earlier length is the same after a return to a later one.
pub fn the_way_back()
    ensures from_itself { AdvancesFromItself }
    ensures words { AdvancesByWords }
    ensures through { AdvancesThrough }
    ensures two_parts { BackInTwoParts }
{}

/// Since when a variable has its word: the end of the newest entry that is about it. Only another word for it changes that.
pub fn variables_since()
    ensures words { SinceByWords }
    ensures push { SinceByPush }
    ensures other { SinceByOther }
    ensures it { SinceByIt }
{}
