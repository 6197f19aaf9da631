// What the rule of the words means for sends.

ghost use Rattle.marks.specs.Laws.{AlwaysCounted, SentIsTakenOrWaits, EachIsCounted, WordsFit};

/// No send is lost, and none is invented: those of all seats to an async are what its loop took from it and what waits
/// in its word, which never wraps.
///
/// It does nothing: its contract is the law. It is over all states of the words and of what all seats know that meet
/// the rule of `Marks`, which holds between any two steps of any threads.
pub fn none_lost_or_invented()
    ensures all { AlwaysCounted SentIsTakenOrWaits }
    ensures each { AlwaysCounted EachIsCounted }
    ensures fit { AlwaysCounted WordsFit }
{}
