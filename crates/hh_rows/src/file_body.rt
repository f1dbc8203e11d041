//! The bytes of a file.

ghost use Rattle.std.specs.Prelude.{◌≡◌, IfOk};

use std::alloc::{AllocError, Global};
use std::marker::Model;
use std::rc::Rc;

/// The bytes of a file, as they came. All holders share one copy of them. Contracts see the list of bytes.
#[derive(Debug, Drop)]
pub struct FileBody {
    bytes: Rc<Vec<u8>>,
}

impl Model for FileBody {
    ghost use Rattle.std.specs.Prelude.{List, ℕ};

    ghost Value = { List ℕ };

    ghost view = { λ body. body.bytes.value.items };
}

impl FileBody {
    /// A file of these bytes. They are moved, not copied. `Err` only if memory is refused.
    pub fn new(alloc: Global, bytes: Vec<u8>) -> Result<FileBody, AllocError>
        ensures { IfOk result (λ body. body ≡ bytes.items) }
    {
        match Rc::new(alloc, bytes) {
            Ok(bytes) => Ok(FileBody { bytes }),
            Err(_refused) => Err(AllocError),
        }
    }

    /// The same bytes for one more holder. `Err` only if there are too many holders to be counted.
    pub fn share(&self) -> Result<FileBody, AllocError>
        ensures { IfOk result (λ body. body ≡ self.now) }
    {
        Ok(FileBody {
            bytes: self.bytes.clone()?,
        })
    }

    /// The bytes, as a slice.
    pub fn as_slice(&self) -> &[u8]
        ensures { result.now ≡ self.now }
    {
        self.bytes.as_ref().as_slice()
    }
}
