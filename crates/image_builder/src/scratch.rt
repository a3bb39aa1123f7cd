//! The page through which banks are read and compared.

ghost use Rattle.image_builder.specs.Page.{page_size};
ghost use Rattle.std.specs.Prelude.{◌≡◌, IfOk, length};

use outside_io::Memory;
use std::alloc::Global;

/// How many bytes a page of a bank has. The last page of a bank may have fewer.
pub const PAGE_BYTES: usize = 4096;

/// A page for what a bank holds. It is taken once, so that a checkpoint asks for no memory.
#[derive(Drop)]
pub struct Scratch {
    /// A page as it was read.
    pub found: Vec<u8>,
    pub ghost found_page: { length found.items ≡ page_size },
}

impl Scratch {
    /// A page of zeros.
    pub fn new(alloc: Global) -> Result<Scratch, Memory>
        ensures found { IfOk result (λ scratch. length scratch.found.items ≡ page_size) }
    {
        let found = vec![in alloc; 0; PAGE_BYTES]?;
        Ok(Scratch { found })
    }
}
