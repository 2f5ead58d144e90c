//! What the laws of the model need of a network.

ghost use Rattle.kn_model.specs.Laws.{IsNet};

use kn_plan::Net;

/// That packets and timers of a network come in later ticks, for a caller that needs it in a proof.
pub fn comes_later(net: &Net)
    ensures { IsNet net.now.network }
{
    net.bounds();
    // Programs are valid, each by its type.
    for program in &net.programs {
        program.validity();
    }
}
