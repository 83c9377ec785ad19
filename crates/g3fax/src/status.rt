//! The statuses that exported functions return.

/// It is done.
pub(crate) const OK: u32 = 0;
/// A width that isn't 1 to 2,432 pixels.
pub(crate) const BAD_WIDTH: u32 = 1;
/// A page has no more room for rows.
pub(crate) const TOO_MANY_ROWS: u32 = 3;
/// A page has no rows.
pub(crate) const NO_ROWS: u32 = 4;
/// Memory was refused.
pub(crate) const NO_MEMORY: u32 = 9;
/// A call can't have a page of this width.
pub(crate) const NOT_CALLABLE: u32 = 26;
/// Two stations have no way to send pages.
pub(crate) const NOT_COMPATIBLE: u32 = 28;
/// The handle has nothing.
pub(crate) const EMPTY_HANDLE: u32 = 100;
/// The handle has something of another kind.
pub(crate) const OTHER_HANDLE: u32 = 101;
/// The handle that is to be filled has something.
pub(crate) const FULL_HANDLE: u32 = 102;
/// The buffer is too small; the size that is needed is told.
pub(crate) const NO_ROOM: u32 = 103;
/// A number that isn't one of those allowed.
pub(crate) const BAD_CHOICE: u32 = 104;
/// A length that isn't allowed.
pub(crate) const BAD_LENGTH: u32 = 105;
/// Nothing is there: no such row, no frame that waits, no page to hand out.
pub(crate) const NOTHING: u32 = 106;
/// Memory was refused after octets of the line were taken: a frame in them is lost.
pub(crate) const FRAME_LOST: u32 = 108;
