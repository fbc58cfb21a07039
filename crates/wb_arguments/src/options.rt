//! Options that several programs have.

use crate::program::Named;

/// The comparison of a clean cache with the origin is left out.
pub const NO_VERIFY: Named = Named {
    name: "no-verify",
    short: None,
    help: "Compare no blocks of a clean cache with the origin first",
    takes_value: false,
    is_global: false,
};

/// An older state may be opened.
pub const ACCEPT_OLDER: Named = Named {
    name: "accept-older",
    short: None,
    help: "Open the older state where the newest root cannot be read",
    takes_value: false,
    is_global: false,
};
