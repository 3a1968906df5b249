// The digest of a placed piece. Its version and its node stand before the front of the piece in a first block; the other blocks are
// read from the piece where it lies.
ghost use Rattle.std.specs.Prelude.{◌≡◌, ℕ, ◌<◌};
ghost use Rattle.coding.specs.Placed.{digest_input, piece_digest};
ghost use Rattle.coding.specs.Sha256.{◌!◌};

use crate::sha256::{digest, digest_after};

// A block of the digest, in bytes.
const BLOCK: usize = 64;
// A version.
const VERSION: usize = 5;
// Version and node.
const PLACE: usize = VERSION + 1;
// What a block has room for behind them: the front of a piece.
const FRONT: usize = BLOCK - PLACE;

// The first 64 bytes of what is digested; zeros stand past its end.
fn first_block(version: [u8; 5], node: u8, piece: &[u8]) -> [u8; 64]
    ensures { (j : ℕ) → j < 64 → result ! j ≡ digest_input version node piece.now ! j }
{
    let mut b = [0u8; 64];
    b[..VERSION].copy_from_slice(&version);
    b[VERSION] = node;
    let front = piece.len().min(FRONT);
    b[PLACE..PLACE + front].copy_from_slice(&piece[..front]);
    b
}

pub fn digest_placed(version: [u8; 5], node: u8, piece: &[u8]) -> [u8; 32]
    ensures { result ≡ piece_digest version node piece.now }
{
    let b = first_block(version, node, piece);
    if piece.len() < FRONT {
        // It stands whole in the block.
        let end = PLACE + piece.len();
        return digest(&b[..end]);
    }
    digest_after(b, &piece[FRONT..])
}
