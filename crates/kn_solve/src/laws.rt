//! Laws on formulas, and on what is known of them.

ghost use Rattle.kn_solve.specs.Laws.{WithoutColumns, LeastStays, NeverStays, StandingIsLive, LeastIsOne};
ghost use Rattle.kn_solve.specs.Parts.{PartsJoin, PartFar, PartNever};

use kn_term::{one_list, words_by_inputs};

/// A formula without columns asks what its condition asks: it is small, far, live or impossible where the condition is,
/// and has its least inputs.
pub fn without_columns()
    ensures { WithoutColumns }
{}

/// The least inputs that meet a formula are the least for further literals and columns too, where they meet these.
pub fn least_stays()
    ensures { LeastStays }
{
    one_list();
    words_by_inputs();
}

/// A formula that no inputs meet is met by none with further literals and columns.
pub fn never_stays()
    ensures { NeverStays }
{}

/// What is kept with a standing is live: some inputs meet it, or it is not small.
pub fn standing_is_live()
    ensures { StandingIsLive }
{}

/// The least inputs that meet a formula are the only ones that are.
pub fn least_is_one()
    ensures { LeastIsOne }
{}

/// A condition is split into a part and the rest, which read no input in common. The least inputs of the part, laid over the
/// least inputs of a condition that has the rest, are the least inputs of all.
pub fn parts_join()
    ensures { PartsJoin }
{
    one_list();
    words_by_inputs();
}

/// Where a part of a condition is far, the condition is.
pub fn part_far()
    ensures { PartFar }
{
    words_by_inputs();
}

/// Where no inputs meet a part of a condition, none meet the condition.
pub fn part_never()
    ensures { PartNever }
{}
