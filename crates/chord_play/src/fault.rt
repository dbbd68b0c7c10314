//! The faults of a simulation.
ghost use Rattle.std.specs.Prelude.{◌≡◌};
ghost use Rattle.chord_play.specs.Faults.{fault_of_text};

use crate::text_reader::TextFault;
use chord_event::RunError;
use chord_plan::Text;
use chord_scenario::ScenarioFault;
use std::alloc::AllocError;

/// Why a simulation did not reach its end. A failed allocation is always an error of the run, even
/// while the texts are read.
#[derive(Drop)]
pub enum PlayFault {
    /// The reader of the text failed.
    Read(Text),
    /// The text is longer than 16,777,216 bytes.
    TooLong(Text),
    /// The texts give no scenario.
    Scenario(ScenarioFault),
    /// The run stopped before its end.
    Run(RunError),
}

impl From<RunError> for PlayFault {
    ghost use Rattle.std.specs.Prelude.{◌≡◌};
    ghost use Rattle.chord_play.specs.declared.fault.PlayFault.TheVariants as play;

    ghost from_gives = { λ error fault. fault ≡ play.Run error };

    fn from(error: RunError) -> PlayFault {
        PlayFault::Run(error)
    }
}

impl From<AllocError> for PlayFault {
    ghost use Rattle.std.specs.Prelude.{◌≡◌};
    ghost use Rattle.des_event.specs.declared.error.RunError.TheVariants as run;
    ghost use Rattle.chord_play.specs.declared.fault.PlayFault.TheVariants as play;

    ghost from_gives = { λ _ fault. fault ≡ play.Run run.Memory };

    fn from(_error: AllocError) -> PlayFault {
        PlayFault::Run(RunError::Memory)
    }
}

impl From<ScenarioFault> for PlayFault {
    ghost use Rattle.std.specs.Prelude.{◌≡◌};
    ghost use Rattle.chord_play.specs.Faults.{fault_of_scenario};

    ghost from_gives = { λ fault given. given ≡ fault_of_scenario fault };

    fn from(fault: ScenarioFault) -> PlayFault {
        match fault {
            ScenarioFault::Memory => PlayFault::Run(RunError::Memory),
            fault => PlayFault::Scenario(fault),
        }
    }
}

/// Why this text was not read, as the fault of the simulation.
pub(crate) fn fault_of_text(text: Text, fault: TextFault) -> PlayFault
    ensures { result ≡ fault_of_text text fault }
{
    match fault {
        TextFault::Read => PlayFault::Read(text),
        TextFault::TooLong => PlayFault::TooLong(text),
        TextFault::Memory => PlayFault::Run(RunError::Memory),
    }
}
