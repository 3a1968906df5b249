// Memory for a run. The longest of each is that of m 3, n 16, t + k 16, F 64.

// What a run goes by, and the line that is read.
#[derive(Drop)]
pub struct Space {
    // Tables and records: 39,356 bytes at most.
    pub memory: [u8; 40960],
    // Parcels: an event may want 56,367 bytes; the rest is for what is under way.
    pub post: [u8; 262144],
    // A page has at most 1,020 bytes; a longer one must be told from it.
    pub page: [u8; 1100],
}

impl Space {
    pub fn new() -> Space {
        Space {
            memory: [0; 40960],
            post: [0; 262144],
            page: [0; 1100],
        }
    }
}

// What an event leaves that is shown at once.
#[derive(Drop)]
pub struct Shown {
    // Rows, 6,279 bytes, or what a client sends.
    pub room: [u8; 6400],
    // A page.
    pub out: [u8; 1100],
}

impl Shown {
    pub fn new() -> Shown {
        Shown {
            room: [0; 6400],
            out: [0; 1100],
        }
    }
}
