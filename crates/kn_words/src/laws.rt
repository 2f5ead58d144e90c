//! Laws on the definitions.

ghost use Rattle.kn_words.specs.Laws.{MadeInRange, OneLine};

/// Words ask for one thing.
pub fn one_line()
    ensures { OneLine }
{}

/// The number of a line is one of which the generator makes a network.
pub fn made_in_range()
    ensures { MadeInRange }
{}
