//! Laws of the networks that are made.

ghost use Rattle.kn_make.specs.Laws.{AreAssembled, AreReadBack, AreValid};

/// The programs of the network of each number, 0 to 35, are what their texts are assembled to.
pub fn programs_are_assembled()
    ensures { AreAssembled }
{}

/// The network of each number is in range, and its programs are valid.
pub fn made_is_valid()
    ensures { AreValid }
{}

/// What `kn_netfile::print` writes of the network of each number, `kn_netfile::read` reads as that network, unless memory
/// runs out.
pub fn made_is_read()
    ensures { AreReadBack }
{}
