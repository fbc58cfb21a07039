//! How a run of the program ends.

ghost use Rattle.std.specs.Prelude.{◌≡◌};

use wb_types::Refusal;

/// How a run ends, from the best to the worst: one that saw several ends with the worst of them.
#[derive(Clone, Copy, PartialEq, Eq, PartialOrd, Ord)]
pub enum Status {
    /// Each line was answered, and none was refused.
    Done,
    /// A line was refused, or was no line of a script.
    Refused,
    /// A device failed, or the target had failed before.
    DeviceFailed,
    /// The script could not be read further, or an answer not be written.
    StreamFailed,
}

impl Status {
    ghost use Rattle.wb_dialogue.specs.Exit.{code_of, status_of};

    /// What a printed refusal makes of a run.
    pub fn of(refusal: Refusal) -> Status
        ensures { result ≡ status_of refusal }
    {
        match refusal {
            Refusal::Io(_) | Refusal::Failed => Status::DeviceFailed,
            _ => Status::Refused,
        }
    }

    /// The exit status of the program; 2 is that of arguments that were not read.
    pub fn code(self) -> u8
        ensures { result ≡ code_of self }
    {
        match self {
            Status::Done => 0,
            Status::Refused => 1,
            Status::DeviceFailed => 3,
            Status::StreamFailed => 4,
        }
    }
}
