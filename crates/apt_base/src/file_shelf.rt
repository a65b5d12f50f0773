// The files of the system, as a shelf. What they hold is not known to any contract.
ghost use Rattle.std.specs.Prelude.{◌≡◌, true, string_bytes};
ghost use Rattle.std.specs.Option.{option_map};
ghost use Rattle.apt_base.specs.Faults.{is_asked_for};

use crate::asked::Asked;
use crate::{Failed, OpenEnd, Shelf};
use std::alloc::Global;
use std::fs;
use std::io::Read;
use std::rt::Files;

/// The files of a runtime, by their paths. It counts its faults by path and tells no bytes.
#[derive(Drop)]
pub struct FileShelf<'a, R: Files> {
    alloc: Global,
    rt: &'a R,
    asked: Asked,
    name: Option<String>,
    file: Option<R::File>,
    ghost entered: { is_asked_for asked (option_map string_bytes name) ≡ true },
}

impl<'a, R: Files> FileShelf<'a, R> {
    /// The files of this runtime.
    pub fn new(alloc: Global, rt: &'a R) -> FileShelf<'a, R> {
        FileShelf {
            alloc,
            rt,
            asked: Asked::new(alloc),
            name: None,
            file: None,
        }
    }
}

impl<R: Files> Shelf for FileShelf<'_, R> {
    ghost use Rattle.std.specs.Prelude.{false, None, string_bytes};
    ghost use Rattle.std.specs.Option.{option_map};
    ghost use Rattle.apt_base.specs.Files.{untold_state, untold_shelf};

    ghost state = { λ s. untold_state s.asked (option_map string_bytes s.name) };

    ghost is_state = { λ s. untold_shelf s.asked (option_map string_bytes s.name) };

    fn open(&mut self, name: &str) -> Result<(), OpenEnd> {
        let copy = String::from_str(self.alloc, name)?;
        self.asked.enter(self.alloc, name)?;
        match fs::open(self.rt, name) {
            Ok(file) => {
                self.name = Some(copy);
                self.file = Some(file);
                Ok(())
            }
            Err(_) => {
                self.asked.raise(name);
                Err(OpenEnd::Failed)
            }
        }
    }

    fn read(&mut self, buf: &mut [u8]) -> Result<usize, Failed> {
        if let Some(file) = &mut self.file {
            if let Ok(count) = file.read(buf) {
                return Ok(count);
            }
        }
        if let Some(name) = &self.name {
            self.asked.raise(name.as_str());
        }
        Err(Failed)
    }
}
