//! Laws of the spellings of programs.

ghost use Rattle.kn_code.specs.Laws.{OneSpelling, ReadsBack};

/// What `encode` writes of a valid program, `decode` reads as that program, unless memory runs out.
pub fn reads_back()
    ensures { ReadsBack }
{}

/// Two valid programs with one spelling are equal.
pub fn one_spelling()
    ensures { OneSpelling }
{}
