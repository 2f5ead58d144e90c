//! Which states, sends and paths are alike, and which paths are given of an event's.

ghost use Rattle.kn_worked.specs.Alikes.{AlikeOtherwise, AlikeReadingLess, ReadsMore, WordByWord, OwnReadsMore, OtherCounts, OtherValues, SendOtherwise, GuardReadsMore, OtherSends, AllGiven, PossibleGiven, PossibleLeftOut, OtherOrder, GivenTwice};

/// Terms that are built otherwise are alike where they have equal words and read no input more.
pub fn alike_otherwise()
    ensures words { AlikeOtherwise }
    ensures reads_less { AlikeReadingLess }
    ensures reads_more { ReadsMore }
    ensures word_by_word { WordByWord }
    ensures own_condition { OwnReadsMore }
{}

/// States of which one part differs are not alike.
pub fn not_alike()
    ensures counts { OtherCounts }
    ensures values { OtherValues }
{}

/// Sends are alike where the payload and the guard say the same and read no input more.
pub fn alike_sends()
    ensures words { SendOtherwise }
    ensures reads_more { GuardReadsMore }
    ensures others { OtherSends }
{}

/// Paths are given where they are the event's in order, apart from some that no inputs meet.
pub fn given_paths()
    ensures all { AllGiven }
    ensures possible { PossibleGiven }
    ensures left_out { PossibleLeftOut }
    ensures other_order { OtherOrder }
    ensures given_twice { GivenTwice }
{}
