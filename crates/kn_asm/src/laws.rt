//! A law of the texts of programs.

ghost use Rattle.kn_asm.specs.Laws.{ReadsBack};

/// What `disassemble` writes of a valid program, `assemble` reads as that program, unless memory runs out.
pub fn reads_back()
    ensures { ReadsBack }
{}
