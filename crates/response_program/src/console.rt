//! The console, and how it is told how a command ends.
ghost use Rattle.std.specs.Prelude.{◌≡◌};
ghost use Rattle.response_program.specs.Console.{HasTold};
ghost use Rattle.response_program.specs.Names.{console as console_name};
ghost use Rattle.response_program.specs.Outcomes.{outcome_of};
ghost use Rattle.response_program.specs.Views.{view};

use crate::ending::Ending;
use byte_lines::Shelf;

/// The name of the console.
pub const CONSOLE: &str = "-";

/// Tells the console how a command ended, and gives it back. Answers the status.
pub fn tell_ending<H: Shelf>(ending: Ending<'_>, console: H::Out, shelf: &mut H) -> u8
    requires label { H.Out.label console ≡ console_name }
    requires fresh { H.Out.faults console ≡ 0 }
    ensures { HasTold (view H.held H.open_faults H.read_faults H.write_faults shelf.old)
        (view H.held H.open_faults H.read_faults H.write_faults shelf.new)
        (outcome_of ending.entry) (H.Out.taken console) result }
{
    let mut console = console;
    let told = ending.tell(&mut console);
    shelf.give_out(CONSOLE, console);
    ending.and_written(CONSOLE, told).status()
}
