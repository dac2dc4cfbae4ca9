//! What is lent to judge a call.

ghost use Rattle.std.specs.Prelude.{◌≡◌, None, option_copied, slice_index_or};

use gm_attr::Attrs;
use gm_base::Setup;
use gm_file::File;
use gm_slots::Slots;
use gm_words::Bank;

/// The slots; the files by number, of which a shut one is None; the attributes; user memory; and the setup.
#[derive(Clone, Copy)]
pub struct Parts<'a> {
    pub slots: &'a Slots,
    pub files: &'a [Option<File>],
    pub attrs: &'a Attrs,
    pub user: &'a Bank,
    pub setup: Setup,
}

impl<'a> Parts<'a> {
    /// The file of this number, where it is in use.
    pub fn file(&self, fd: u32) -> Option<&'a File>
        ensures { option_copied result ≡ slice_index_or self.now.files.now fd None }
    {
        match self.files.get(fd as usize) {
            Some(file) => file.as_ref(),
            None => None,
        }
    }
}
