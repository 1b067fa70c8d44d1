// The packet types (RFC 3550, 12.1): sender report, receiver report, source description.
pub(crate) const SENDER_REPORT: u8 = 200;

pub(crate) const RECEIVER_REPORT: u8 = 201;

pub(crate) const SOURCE_DESCRIPTION: u8 = 202;
