//! The edges of an event, by name. Their order is that of a handshake and of arbitration.

/// The number of edges of an event.
pub const EDGES: u8 = 20;
/// The begin of an event: the address is driven, or the bus requested.
pub const BEGIN: u8 = 0;
/// The begin of the first handshake: AS* falls, if the handshake opens a cycle.
pub const FIRST: u8 = 1;
/// The begin of the second handshake of an event that has two.
pub const SECOND: u8 = 10;
/// The release of the bus after a cycle that no board answers.
pub const RELEASE: u8 = 12;
/// The end of an event.
pub const END: u8 = 19;

/// The master drives the data of a write: so many edges after the begin of a handshake.
pub const MASTER_DRIVES: u8 = 0;
/// The data strobes fall.
pub const STROBES_FALL: u8 = 1;
/// The board drives the data of a read.
pub const BOARD_DRIVES: u8 = 2;
/// The answer falls: DTACK* or BERR*.
pub const ANSWER_FALLS: u8 = 3;
/// The strobes rise.
pub const STROBES_RISE: u8 = 6;
/// The data are released.
pub const DATA_RELEASED: u8 = 7;
/// The answer rises.
pub const ANSWER_RISES: u8 = 8;
/// The address is released.
pub const ADDRESS_RELEASED: u8 = 9;

/// A grant line falls: so many edges after the release of the bus, or after the begin of an event.
pub const GRANT: u8 = 1;
/// BBSY* falls: so many edges after a grant line has fallen.
pub const BUSY_FALLS: u8 = 1;
/// The bus request line rises.
pub const REQUEST_RISES: u8 = 2;
/// The grant line rises.
pub const GRANT_ENDS: u8 = 3;
