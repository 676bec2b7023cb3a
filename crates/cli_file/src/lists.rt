//! Where the texts of lists stand.

use crate::fault::ActionFault;
use crate::texts::text_of;
use std::alloc::Global;
use std::fs;

/// Texts of lists, each at a path.
pub trait Lists {
    ghost use Rattle.std.specs.Prelude.{ℕ, List, Option, IfErr, IfOk};
    ghost use Rattle.cli_file.specs.Faults.{IsOfFile};
    ghost use Rattle.cli_file.specs.Texts.{IsTextOf};

    /// The bytes at each path, where they are known.
    ghost text: { List ℕ → Option (List ℕ) };

    /// The text at a path.
    fn read(&self, alloc: Global, path: &str) -> Result<Vec<u8>, ActionFault<'static>>
        ensures read { IfOk result (λ bytes. IsTextOf (text path.now) bytes.items) }
        ensures refused { IfErr result IsOfFile };
}

/// The files of the machine. What they hold is not known.
#[derive(Drop)]
pub struct MachineLists<'n> {
    /// The machine.
    pub rt: &'n HostRuntime,
}

impl<'n> Lists for MachineLists<'n> {
    ghost use Rattle.std.specs.Prelude.{None};

    ghost text = { λ _. None };

    fn read(&self, alloc: Global, path: &str) -> Result<Vec<u8>, ActionFault<'static>> {
        match fs::open(self.rt, path) {
            Ok(file) => text_of(alloc, file),
            Err(error) => Err(ActionFault::of_io(&error)),
        }
    }
}
