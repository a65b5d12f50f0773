// A shelf in memory.
ghost use Rattle.std.specs.Prelude.{◌≡◌, ◌<◌, ◌==◌, [], length, Some, None, true, string_bytes};
ghost use Rattle.std.specs.Str.{bytes_eq};
ghost use Rattle.std.specs.List.{position};
ghost use Rattle.apt_base.specs.Opened.{is_entered};

use crate::asked::Asked;
use crate::moves::{copy_front, from_place};
use crate::plan::Plan;
use crate::{Failed, OpenEnd, Shelf};
use std::alloc::Global;

/// The open file, by its place on the shelf, and how many of its bytes were read.
#[derive(Clone, Copy, Drop)]
pub struct Opened {
    pub file: usize,
    pub taken: usize,
}

/// Files in memory, each with a name; the first counts where two have one name. It tells them.
#[derive(Drop)]
pub struct MemShelf {
    alloc: Global,
    files: Vec<(String, Vec<u8>)>,
    asked: Asked,
    opened: Option<Opened>,
    plan: Plan,
    ghost some: { 0 < plan.piece },
    ghost entered: { is_entered files.items asked opened ≡ true },
}

impl MemShelf {
    ghost use Rattle.apt_base.specs.MemShelf.{shelf_state};
    ghost use Rattle.apt_base.specs.Memory.{files_of};

    /// A shelf of these files. Its calls, `open` and `read` together, are numbered from 0: those whose
    /// numbers stand in `failing` fail, and each other read moves as many bytes as it can, but at most
    /// `piece`. It is sure where none is to fail.
    pub fn new(
        alloc: Global,
        files: Vec<(String, Vec<u8>)>,
        piece: usize,
        failing: Vec<u64>,
    ) -> MemShelf
        requires { 0 < piece }
        ensures state { shelf_state result ≡ record { sure = length failing.items == 0; asked = []; files = Some (files_of files.items); opened = None; rest = None } }
        ensures plan { result.plan ≡ record { piece = piece; failing = failing; calls = 0 } }
    {
        MemShelf {
            alloc,
            files,
            asked: Asked::new(alloc),
            opened: None,
            plan: Plan {
                piece,
                failing,
                calls: 0,
            },
        }
    }
}

impl Shelf for MemShelf {
    ghost use Rattle.std.specs.Prelude.{◌≡◌, ◌≢◌, Err, IsSome, length};
    ghost use Rattle.apt_base.specs.Files.{IsOpening, IsFileRead};
    ghost use Rattle.apt_base.specs.Plan.{planned, one_call_more};
    ghost use Rattle.apt_base.specs.MemShelf.{shelf_state, shelf_law, open_answer, read_answer};

    ghost state = { shelf_state };

    ghost is_state = { shelf_law };

    fn open(&mut self, name: &str) -> Result<(), OpenEnd>
        ensures open { IsOpening (shelf_state self.old) name.now result (shelf_state self.new) }
        ensures answer { result ≢ Err OpenEnd.NoMemory → (result ≡ open_answer self.old name.now) × (self.new.plan ≡ one_call_more self.old.plan) }
        ensures no_memory { result ≡ Err OpenEnd.NoMemory → self.new.plan ≡ self.old.plan }
    {
        self.asked.enter(self.alloc, name)?;
        match file_at(self.files.as_slice(), name) {
            Some(file) => match self.plan.call(0) {
                Ok(_) => {
                    self.opened = Some(Opened { file, taken: 0 });
                    Ok(())
                }
                Err(_) => {
                    self.asked.raise(name);
                    Err(OpenEnd::Failed)
                }
            },
            None => {
                let _ = self.plan.call(0);
                self.asked.raise(name);
                Err(OpenEnd::Failed)
            }
        }
    }

    fn read(&mut self, buf: &mut [u8]) -> Result<usize, Failed>
        requires { IsSome (shelf_state self.old).opened }
        ensures read { IsFileRead (shelf_state self.old) result buf.new (shelf_state self.new) }
        ensures answer { result ≡ read_answer self.old (length buf.new) }
        ensures next { self.new.plan ≡ one_call_more self.old.plan }
    {
        let Some(opened) = self.opened else {
            return Err(Failed);
        };
        let Some(file) = self.files.as_slice().get(opened.file) else {
            return Err(Failed);
        };
        let left = from_place(file.1.as_slice(), opened.taken);
        match self.plan.call(buf.len().min(left.len())) {
            Ok(count) => {
                copy_front(left, buf, count);
                self.opened = Some(Opened {
                    file: opened.file,
                    taken: opened.taken + count,
                });
                Ok(count)
            }
            Err(Failed) => {
                self.asked.raise(file.0.as_str());
                Err(Failed)
            }
        }
    }
}

/// Where the first file with that name stands.
fn file_at(files: &[(String, Vec<u8>)], name: &str) -> Option<usize>
    ensures { result ≡ position (λ file. bytes_eq name.now (string_bytes file.0)) files.now }
{
    files.iter().position(|file| name == file.0.as_str())
}
