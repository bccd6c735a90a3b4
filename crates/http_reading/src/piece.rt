//! Where a read puts its bytes before they are held.
ghost use Rattle.std.specs.Prelude.{◌≡◌, ◌<◌, length, OnOk, IfErr};

use super::fault::HttpFault;
use std::alloc::Global;

/// How many bytes are asked of a link at once.
const PIECE: usize = 8_192;

/// A block that is made at the first read and kept, so that no later one makes or clears it.
#[derive(Drop)]
pub(crate) struct Piece {
    pub block: Vec<u8>,
}

impl Piece {
    /// No block yet. It takes no memory.
    pub(crate) fn new(alloc: Global) -> Piece {
        Piece {
            block: Vec::new(alloc),
        }
    }

    /// Sees to it that there is a block.
    pub(crate) fn make_ready(&mut self) -> Result<(), HttpFault>
        ensures ok { OnOk result (0 < length self.new.block.items) }
        ensures err { IfErr result (λ e. e ≡ HttpFault.NoMemory) }
    {
        if self.block.is_empty() {
            return self.block.resize(PIECE, 0).map_err(|_| HttpFault::NoMemory);
        }
        Ok(())
    }
}
