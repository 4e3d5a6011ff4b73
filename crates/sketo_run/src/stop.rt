//! Why there is no answer.
ghost use Rattle.std.specs.Prelude.{◌≡◌};

use crate::status::Status;
use data_text::DataFault;
use script_lang::{Script, ScriptFault};
use script_run::FitFault;
use std::alloc::AllocError;

/// Why there is no answer.
#[derive(Drop)]
pub enum Stop {
    /// The script couldn't be read.
    ScriptUnread,
    /// The data couldn't be read.
    DataUnread,
    /// The script is at fault.
    BadScript(ScriptFault),
    /// The data is at fault.
    BadData(DataFault),
    /// The data doesn't fit this script.
    Unfit(FitFault, Script),
    /// Memory was refused.
    NoMemory,
    /// A form that isn't built yet.
    NotBuilt,
}

impl Stop {
    ghost use Rattle.sketo_run.specs.Stops.{status_of};

    /// The status that tells of it.
    pub fn status(&self) -> Status
        ensures { result ≡ status_of self.now }
    {
        match self {
            Stop::ScriptUnread | Stop::DataUnread => Status::ReadFailed,
            Stop::BadScript(_) => Status::ScriptRefused,
            Stop::BadData(_) | Stop::Unfit(_, _) => Status::DataRefused,
            Stop::NoMemory => Status::NoMemory,
            Stop::NotBuilt => Status::NotBuilt,
        }
    }
}

impl From<AllocError> for Stop {
    ghost use Rattle.std.specs.Prelude.{◌≡◌};
    ghost use Rattle.sketo_run.specs.declared.stop.Stop.TheVariants.{NoMemory};

    ghost from_gives = { λ _ e. e ≡ NoMemory };

    fn from(_: AllocError) -> Stop {
        Stop::NoMemory
    }
}

impl From<ScriptFault> for Stop {
    ghost use Rattle.std.specs.Prelude.{◌≡◌};
    ghost use Rattle.sketo_run.specs.Stops.{stop_of_script};

    ghost from_gives = { λ fault stop. stop ≡ stop_of_script fault };

    fn from(fault: ScriptFault) -> Stop {
        match fault {
            ScriptFault::Memory => Stop::NoMemory,
            fault => Stop::BadScript(fault),
        }
    }
}

impl From<DataFault> for Stop {
    ghost use Rattle.std.specs.Prelude.{◌≡◌};
    ghost use Rattle.sketo_run.specs.Stops.{stop_of_data};

    ghost from_gives = { λ fault stop. stop ≡ stop_of_data fault };

    fn from(fault: DataFault) -> Stop {
        match fault {
            DataFault::Read => Stop::DataUnread,
            DataFault::Memory => Stop::NoMemory,
            fault => Stop::BadData(fault),
        }
    }
}
