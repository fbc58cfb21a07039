//! The numbers of the protocol, each under its name.

/// The first words of a connection: the letters `NBDMAGIC`, and `IHAVEOPT`, with which each option begins too.
pub(crate) const GREETING_MAGIC: u64 = 0x4e42_444d_4147_4943;

pub(crate) const OPTION_MAGIC: u64 = 0x4948_4156_454f_5054;

/// The first word of what an option is answered: `NBD_REP_MAGIC`.
pub(crate) const OPTION_REPLY_MAGIC: u64 = 0x0003_e889_0455_65a9;

/// The first word of a request: `NBD_REQUEST_MAGIC`.
pub(crate) const REQUEST_MAGIC: u32 = 0x2560_9513;

/// The first word of a simple reply: `NBD_SIMPLE_REPLY_MAGIC`.
pub(crate) const REPLY_MAGIC: u32 = 0x6744_6698;

/// What the server offers: `NBD_FLAG_FIXED_NEWSTYLE` and `NBD_FLAG_NO_ZEROES`.
pub(crate) const HANDSHAKE_FLAGS: u16 = 3;

/// Options: `NBD_OPT_EXPORT_NAME` and so on.
pub(crate) const EXPORT_NAME: u32 = 1;

pub(crate) const ABORT: u32 = 2;

pub(crate) const LIST: u32 = 3;

pub(crate) const INFO: u32 = 6;

pub(crate) const GO: u32 = 7;

/// What an option is answered: `NBD_REP_ACK` and so on.
pub(crate) const REPLY_ACK: u32 = 1;

pub(crate) const REPLY_SERVER: u32 = 2;

pub(crate) const REPLY_INFO: u32 = 3;

pub(crate) const REPLY_UNSUPPORTED: u32 = 0x8000_0001;

pub(crate) const REPLY_INVALID: u32 = 0x8000_0003;

pub(crate) const REPLY_TOO_BIG: u32 = 0x8000_0009;

/// What is told of an export: `NBD_INFO_EXPORT` and `NBD_INFO_BLOCK_SIZE`.
pub(crate) const INFO_EXPORT: u16 = 0;

pub(crate) const INFO_BLOCK_SIZE: u16 = 3;

/// `NBD_FLAG_HAS_FLAGS`, `NBD_FLAG_SEND_FLUSH`, `NBD_FLAG_SEND_FUA` and `NBD_FLAG_SEND_WRITE_ZEROES`.
pub(crate) const TRANSMISSION_FLAGS: u16 = 77;

/// How many bytes an option's first part and a request have, before what follows them.
pub(crate) const OPTION_BYTES: usize = 16;

pub(crate) const REQUEST_BYTES: usize = 28;

/// The most bytes of an option that are looked at.
pub(crate) const MOST_OPTION_BYTES: usize = 4096;

/// The most bytes that one request may read or write, but for zeros: 32 MiB.
pub const MOST_BYTES: u32 = 33_554_432;
