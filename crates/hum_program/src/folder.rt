//! Files that are opened by their names.
ghost use Rattle.std.specs.Prelude.{◌≡◌, true, ℕ, Bool, List, Option};
ghost use Rattle.hum_program.specs.Reads.{IsOpened};

use hum_net::{Marked, Scores};
use std::io;
use std::io::Read;

/// Where files are opened by their names.
pub trait Folder {
    /// An open file.
    type File: Read + Drop;

    // whether it is known which files there are, and what they say
    ghost is_known: { Self → Bool };
    // the bytes of the file of a name, where there is one
    ghost file: { Self → List ℕ → Option (List ℕ) };

    /// Opens the file of this name.
    ///
    /// # Errors
    /// It can't be opened.
    fn open(&self, name: &str) -> io::Result<Self::File>
        ensures { is_known self.now ≡ true → IsOpened Self.File.remaining (file self.now name.now) result };
}

/// The files of a folder, as scores by their names.
#[derive(Drop)]
pub(crate) struct FolderScores<'a, F> {
    folder: &'a F,
}

impl<'a, F: Folder> FolderScores<'a, F> {
    pub(crate) fn new(folder: &'a F) -> FolderScores<'a, F>
        ensures { result ≡ record { folder = folder.entry } }
    {
        FolderScores { folder }
    }
}

impl<'a, F: Folder> Scores for FolderScores<'a, F> {
    type Reader = Marked<F::File>;

    ghost is_known = { λ s. F.is_known s.folder.now };

    ghost score = { λ s name. F.file s.folder.now name };

    fn reader(&self, name: &str) -> Option<Marked<F::File>> {
        match self.folder.open(name) {
            Ok(file) => Some(Marked::new(file)),
            Err(_) => None,
        }
    }
}
