// The offsets of a PLIC's registers, written out from its specification: by constants of the chip's own a test of the map would check the
// map against itself.

// The priorities of some sources.
pub(crate) const PRIORITY_0: u32 = 0;

pub(crate) const PRIORITY_1: u32 = 4;

pub(crate) const PRIORITY_5: u32 = 4 * 5;

pub(crate) const PRIORITY_9: u32 = 4 * 9;

pub(crate) const PRIORITY_32: u32 = 4 * 32;

pub(crate) const PRIORITY_63: u32 = 4 * 63;

// The bits of sources 0 to 31 and of 32 to 63.
pub(crate) const PENDING: u32 = 0x00_1000;

pub(crate) const PENDING_HIGH: u32 = 0x00_1004;

pub(crate) const ENABLE: u32 = 0x00_2000;

pub(crate) const ENABLE_HIGH: u32 = 0x00_2004;

pub(crate) const THRESHOLD: u32 = 0x20_0000;

pub(crate) const CLAIM_COMPLETE: u32 = 0x20_0004;

// The registers of source 1023.
pub(crate) const LAST_PRIORITY: u32 = 0x00_0ffc;

pub(crate) const LAST_PENDING: u32 = 0x00_107c;

pub(crate) const LAST_ENABLE: u32 = 0x00_207c;

// Every bit of a word.
pub(crate) const ALL: u32 = 0xffff_ffff;
