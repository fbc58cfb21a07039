//! Errors, as a reply tells them.

ghost use Rattle.std.specs.Prelude.{◌≡◌};
ghost use Rattle.wb_nbd.specs.Replies.{error_number};

/// Why a request is answered with an error.
#[derive(Clone, Copy)]
pub enum Errno {
    /// A device failed: `NBD_EIO`.
    Io,
    /// There is no memory: `NBD_ENOMEM`.
    Memory,
    /// The request is none that is served: `NBD_EINVAL`.
    Invalid,
    /// There is no room for what is written, or it goes past the end: `NBD_ENOSPC`.
    Space,
    /// What is served has failed, and serves nothing more: `NBD_ESHUTDOWN`.
    Shutdown,
}

impl Errno {
    /// Its number in a reply.
    pub(crate) fn number(self) -> u32
        ensures { result ≡ error_number self }
    {
        match self {
            Errno::Io => 5,
            Errno::Memory => 12,
            Errno::Invalid => 22,
            Errno::Space => 28,
            Errno::Shutdown => 108,
        }
    }
}
