//! Laws of network files.

ghost use Rattle.std.specs.Prelude.{◌≡◌, ◌≤◌, length, Ok};
ghost use Rattle.std.specs.List.{AllByRecursion};
ghost use Rattle.kn_code.specs.Code.{IsValid};
ghost use Rattle.kn_netfile.specs.Laws.{ReadsBack};
ghost use Rattle.kn_netfile.specs.Printing.{file_text};
ghost use Rattle.kn_netfile.specs.Reading.{file_of, most_bytes};

use kn_code::Program;
use kn_plan::Net;

/// What `print` writes of a network, `read` reads as that network, where it is at most 1,048,576 bytes, unless memory
/// runs out.
pub fn reads_back()
    ensures { ReadsBack }
{}

/// The text of a network, where it is at most 1,048,576 bytes, gives that network again, for a caller that needs it in a
/// proof.
pub fn text_is_read(net: &Net)
    ensures { length (file_text net.now) ≤ most_bytes → file_of (file_text net.now) ≡ Ok net.now }
{
    net.bounds();
    all_valid(&net.programs);
}

/// That programs are valid, each by its type.
fn all_valid(programs: &[Program])
    ensures { AllByRecursion IsValid programs.now }
{
    for program in programs {
        program.validity();
    }
}
