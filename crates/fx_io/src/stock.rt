// The files of a shelf in memory.
ghost use Rattle.std.specs.Prelude.{◌≡◌, [], ◌++◌, length, take, min, is_some};
ghost use Rattle.std.specs.Bool.{OnFalse};
ghost use Rattle.std.specs.List.{position};
ghost use Rattle.std.specs.Str.{bytes_eq};
ghost use Rattle.fx_io.specs.Outside.{bytes_of, has_file};
ghost use Rattle.fx_io.specs.Places.{IsPlace, left_at};

use super::stored::Stored;
use std::marker::Model;

/// Files in memory, and how far the started one was read.
#[derive(Drop)]
pub(crate) struct Stock {
    files: Vec<Stored>,
    place: Option<Place>,
}

/// The file at an index, from a byte on.
#[derive(Clone, Copy)]
pub(crate) struct Place {
    file: usize,
    at: usize,
}

impl Model for Stock {
    ghost use Rattle.fx_io.specs.States.{StockState};

    ghost Value = { StockState };

    ghost use Rattle.fx_io.specs.Places.{left_at, IsPlace};

    ghost view = { λ s. record { files = s.files.items; left = left_at s.files.items s.place } };

    ghost invariant = { λ s. IsPlace s.files.items s.place };
}

impl Stock {
    /// These files, of which none is started.
    pub(crate) fn new(files: Vec<Stored>) -> Stock
        ensures files { result.files ≡ files.items }
        ensures left { result.left ≡ [] }
    {
        Stock { files, place: None }
    }

    /// Gives up the file that was started before.
    pub(crate) fn close(&mut self)
        ensures files { self.new.files ≡ self.old.files }
        ensures left { self.new.left ≡ [] }
    {
        self.place = None;
    }

    /// Starts the first file of this name, and says whether there is one.
    pub(crate) fn open(&mut self, name: &str) -> bool
        ensures files { self.new.files ≡ self.old.files }
        ensures left { self.new.left ≡ bytes_of self.old.files name.now }
        ensures found { result ≡ has_file self.old.files name.now }
        ensures missing { OnFalse result (self.new.left ≡ []) }
    {
        self.place = first_of(&self.files, name);
        self.place.is_some()
    }

    /// Moves as many bytes as are left and fit into the front of `into`, and says how many.
    pub(crate) fn read(&mut self, into: &mut [u8]) -> usize
        ensures count { result ≡ min (length self.old.left) (length into.old) }
        ensures bytes { self.old.left ≡ take result into.new ++ self.new.left }
        ensures files { self.new.files ≡ self.old.files }
    {
        let Some(place) = self.place else {
            return 0;
        };
        let bytes = self.files[place.file].bytes();
        let count = copy_front(&bytes[place.at..], into);
        self.place = Some(Place {
            file: place.file,
            at: place.at + count,
        });
        count
    }
}

// Where the first file of this name begins.
fn first_of(files: &Vec<Stored>, name: &str) -> Option<Place>
    ensures within { IsPlace files.now.items result }
    ensures found { is_some result ≡ has_file files.now.items name.now }
    ensures bytes { left_at files.now.items result ≡ bytes_of files.now.items name.now }
{
    match index_of(files, name) {
        Some(file) => Some(Place { file, at: 0 }),
        None => None,
    }
}

// Which file is the first of this name.
fn index_of(files: &Vec<Stored>, name: &str) -> Option<usize>
    ensures { result ≡ position (λ file. bytes_eq file.0 name.now) files.now.items }
{
    files.iter().position(|file| file.name() == name)
}

// Copies as many bytes as fit to the front of `into`, and says how many.
fn copy_front(from: &[u8], into: &mut [u8]) -> usize
    ensures count { result ≡ min (length from.now) (length into.old) }
    ensures bytes { take result into.new ≡ take result from.now }
{
    let count = from.len().min(into.len());
    into[..count].copy_from_slice(&from[..count]);
    count
}
