// The tags of messages to a node, and of those to a client: bytes as they are sent. Each is matched where it comes in and put where it goes
// out, and none is kept, so an enum would only say the six numbers once more.
pub const STORE: u8 = 1;

pub const REQUEST: u8 = 2;

pub const FREE: u8 = 3;

pub const STORED: u8 = 4;

pub const FREED: u8 = 5;

pub const REPLY: u8 = 6;
