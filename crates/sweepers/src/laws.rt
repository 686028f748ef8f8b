//! What sweeping devices do over many calls: their wishes come in turn. The functions do nothing; what they promise is
//! proved.

ghost use Rattle.std.specs.Prelude.{◌≡◌};
ghost use Rattle.device.specs.Windows.{window_meaning};
ghost use Rattle.sweepers.specs.Cases.{WorkedSweeps};
ghost use Rattle.sweepers.specs.Courses.{PlateSetterSweeps, ScannerSweeps, WindowedPlateSetterSweeps};
ghost use Rattle.sweepers.specs.Plates.{plate_meaning};
ghost use Rattle.sweepers.specs.Scanners.{scanner_meaning};

use crate::plate_setter::PlateSetter;
use crate::scanner::Scanner;
use device::meaning::Device;
use device::window::Window;

/// After command 1 the plate setter wishes for LDblk of each block in turn, for the INT with value 1, and for
/// nothing; after any other command for nothing.
#[tactic(auto, using(crate::proofs::Sweepers::sweeper_sweeps))]
pub fn plate_setter_sweeps()
    ensures meant { ⟦<PlateSetter as Device>⟧.meaning ≡ plate_meaning }
    ensures sweeps { PlateSetterSweeps }
{}

/// The same of the scanner, with STblk of its row and value 2.
#[tactic(auto, using(crate::proofs::Sweepers::sweeper_sweeps))]
pub fn scanner_sweeps()
    ensures meant { ⟦<Scanner as Device>⟧.meaning ≡ scanner_meaning }
    ensures sweeps { ScannerSweeps }
{}

/// The same of the plate setter behind its window.
#[tactic(auto, using(crate::proofs::Sweepers::windowed_plate_setter_sweeps))]
pub fn windowed_plate_setter_sweeps()
    ensures meant { ⟦<Window<PlateSetter> as Device>⟧.meaning ≡ window_meaning plate_meaning }
    ensures sweeps { WindowedPlateSetterSweeps }
{}

/// Sweeps that are written by the places of the words come out wish by wish.
pub fn worked_sweeps_come_out()
    ensures { WorkedSweeps }
{}
