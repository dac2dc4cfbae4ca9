//! Room that is kept.

ghost use Rattle.std.specs.Prelude.{◌≡◌, ℕ, ◌≤◌, IsOk, OnOk, vec_capacity, vec_len};
ghost use Rattle.gm_store.specs.Rooms.{HasRoom, HasRoomIn, RoomsKept};
ghost use Rattle.gm_store.specs.Stored.{StoreStands, Stored};
ghost use Rattle.gm_store.specs.Views.{file_in};

use crate::store::Store;
use gm_base::NoMemory;
use gm_file::File;

// Keeps room in a file. Nothing is kept where no file in use has the number.
fn reserve_in(
    files: &mut Vec<Option<File>>,
    file: u32,
    pages: u32,
    binds: u32,
) -> Result<(), NoMemory>
    ensures kept { RoomsKept files.old.items files.new.items }
    ensures room { OnOk result (HasRoom pages binds (file_in files.new.items file)) }
    ensures enough { HasRoom pages binds (file_in files.old.items file) → IsOk result }
    ensures len { vec_len files.new ≡ vec_len files.old }
    ensures capacity { vec_capacity files.new ≡ vec_capacity files.old }
{
    if file as usize >= files.len() {
        return Ok(());
    }
    match &mut files[file as usize] {
        Some(x) => x.reserve(pages, binds),
        None => Ok(()),
    }
}

impl Store {
    // Keeps room for files.
    fn reserve_files(&mut self, files: u32) -> Result<(), NoMemory>
        ensures others { self.new ≡ record self.old { spare = self.new.spare } }
        ensures spare { self.old.spare ≤ self.new.spare }
        ensures room { OnOk result (files ≤ self.new.spare) }
        ensures enough { files ≤ self.old.spare → IsOk result }
    {
        if self.spare < files as u64 {
            self.files.reserve(files as usize)?;
            self.spare = files as u64;
        }
        Ok(())
    }

    /// Keeps room for at least this many more files and, where a file is named that is in use, for at least this many more
    /// pages and bound ranges of it. Nothing else that is seen changes, and no room is less after it. `NoMemory` comes only
    /// where there is less room yet; a part of it may be kept then.
    pub fn reserve(
        &mut self,
        files: u32,
        file: Option<u32>,
        pages: u32,
        binds: u32,
    ) -> Result<(), NoMemory>
        ensures others { self.new ≡ record self.old { files = self.new.files; spare = self.new.spare } }
        ensures kept { RoomsKept self.old.files self.new.files }
        ensures spare { self.old.spare ≤ self.new.spare }
        ensures files_room { OnOk result (files ≤ self.new.spare) }
        ensures file_room { OnOk result (HasRoomIn file pages binds self.new.files) }
        ensures enough { files ≤ self.old.spare → HasRoomIn file pages binds self.old.files → IsOk result }
        ensures stands { (frames : ℕ) (k : Stored) → StoreStands frames self.old k → StoreStands frames self.new k }
    {
        self.reserve_files(files)?;
        match file {
            Some(number) => reserve_in(&mut self.files, number, pages, binds),
            None => Ok(()),
        }
    }
}
