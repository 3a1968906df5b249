// Memory for a session, and what of it is lent. The longest of each is that of m 3, n 16, t + k 16, F 64.
ghost use Rattle.std.specs.Prelude.{◌≡◌, replicate};

#[derive(Drop)]
pub struct Space {
    // Tables and records: 39,356 bytes at most.
    pub memory: [u8; 40960],
    // Rows, 6,279 bytes, or what a client sends.
    pub room: [u8; 6400],
    // A page that was read.
    pub out: [u8; 1100],
    // Parcels: an event may want 56,367 bytes, and as much may be under way.
    pub post: [u8; 262144],
    // A line of output.
    pub text: [u8; 4096],
}

// What a session is lent, besides the page that it reads.
#[derive(Drop)]
pub struct Slices<'a> {
    pub memory: &'a mut [u8],
    pub room: &'a mut [u8],
    pub out: &'a mut [u8],
    pub post: &'a mut [u8],
    pub text: &'a mut [u8],
}

impl Space {
    pub fn new() -> Space
        ensures memory { result.memory ≡ replicate 40960 0 }
        ensures room { result.room ≡ replicate 6400 0 }
        ensures out { result.out ≡ replicate 1100 0 }
        ensures post { result.post ≡ replicate 262144 0 }
        ensures text { result.text ≡ replicate 4096 0 }
    {
        Space {
            memory: [0; 40960],
            room: [0; 6400],
            out: [0; 1100],
            post: [0; 262144],
            text: [0; 4096],
        }
    }

    pub fn lend(&mut self) -> Slices<'_>
        ensures memory { result.memory.now ≡ self.old.memory }
        ensures room { result.room.now ≡ self.old.room }
        ensures out { result.out.now ≡ self.old.out }
        ensures post { result.post.now ≡ self.old.post }
        ensures text { result.text.now ≡ self.old.text }
    {
        let memory = &mut self.memory;
        let room = &mut self.room;
        let out = &mut self.out;
        let post = &mut self.post;
        let text = &mut self.text;
        Slices {
            memory,
            room,
            out,
            post,
            text,
        }
    }
}

// A page has at most 1,020 bytes; a longer one must be told from it.
pub fn page() -> [u8; 1100]
    ensures { result ≡ replicate 1100 0 }
{
    [0; 1100]
}
