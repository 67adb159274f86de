//! The tags of fields (Ordinal Theory Handbook, "Inscriptions", "Fields").

pub const CONTENT_TYPE: u8 = 1;

pub const POINTER: u8 = 2;

pub const PARENT: u8 = 3;

pub const METADATA: u8 = 5;

pub const METAPROTOCOL: u8 = 7;

pub const CONTENT_ENCODING: u8 = 9;

pub const DELEGATE: u8 = 11;
