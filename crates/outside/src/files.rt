//! Files in memory, of which one at a time is read.
ghost use Rattle.std.specs.Prelude.{◌≡◌, ◌<◌, ◌++◌, min, length, take, drop, option_and_then, position, bytes_eq, string_bytes, IfSome, IsSome, is_some, None, Some};
ghost use Rattle.outside.specs.Files.{file_list, file_of, place_of, with_reading, rest_of, after_piece};

use std::marker::Model;

/// Files in memory, and how far the open one was read.
#[derive(Drop)]
pub struct Files {
    files: Vec<(String, Vec<u8>)>,
    started: Option<usize>,
    at: usize,
}

impl Model for Files {
    ghost use Rattle.outside.specs.Files.{Held};

    ghost Value = { Held };

    ghost use Rattle.outside.specs.FilesLayout.{held_of, IsOpen};

    ghost view = { held_of };

    ghost invariant = { IsOpen };
}

impl Files {
    /// These files, none of them open.
    pub fn new(files: Vec<(String, Vec<u8>)>) -> Files
        ensures { result ≡ record { files = file_list files.items; reading = None } }
    {
        Files {
            files,
            started: None,
            at: 0,
        }
    }

    /// The place of the first file of this name.
    pub fn place(&self, name: &str) -> Option<usize>
        ensures value { result ≡ place_of self.now.files name.now }
        ensures found { is_some result ≡ is_some (file_of self.now.files name.now) }
    {
        place_in(&self.files, name)
    }

    /// The place of the open file.
    pub fn open_place(&self) -> Option<usize>
        ensures { result ≡ option_and_then (λ f. place_of self.now.files f.name) self.now.reading }
    {
        self.started
    }

    /// Opens the first file of a name, whose place this is.
    pub fn open(&mut self, place: usize, name: &str)
        requires { place_of self.old.files name.now ≡ Some place }
        ensures after { self.new ≡ with_reading self.old (file_of self.old.files name.now) }
        ensures named { IfSome self.new.reading (λ f. f.name ≡ name.now) }
    {
        self.started = Some(place);
        self.at = 0;
    }

    /// Leaves no file open.
    pub fn close(&mut self)
        ensures { self.new ≡ with_reading self.old None }
    {
        self.started = None;
    }

    /// Copies what is left into the front of `buf`, as much as fits, `most` bytes or fewer.
    pub fn read(&mut self, buf: &mut [u8], most: usize) -> usize
        requires { IsSome self.old.reading }
        ensures count { result ≡ min most (min (length buf.old) (length (rest_of self.old))) }
        ensures filled { buf.new ≡ take result (rest_of self.old) ++ drop result buf.old }
        ensures after { self.new ≡ after_piece self.old result }
    {
        match self.started {
            None => unreachable!(),
            Some(i) => {
                let n = fill(buf, &self.files[i].1[self.at..], most);
                self.at += n;
                n
            }
        }
    }
}

// The place of the first pair with this name.
fn place_in(pairs: &[(String, Vec<u8>)], name: &str) -> Option<usize>
    ensures { result ≡ position (λ p. bytes_eq (string_bytes p.0) name.now) pairs.now }
{
    pairs.iter().position(|p| p.0.as_str() == name)
}

// Copies the front of `rest` into the front of `buf`, as much as fits, `most` bytes or fewer.
fn fill(buf: &mut [u8], rest: &[u8], most: usize) -> usize
    ensures count { result ≡ min most (min (length buf.old) (length rest.now)) }
    ensures filled { buf.new ≡ take result rest.now ++ drop result buf.old }
{
    let n = most.min(buf.len().min(rest.len()));
    buf[..n].copy_from_slice(&rest[..n]);
    n
}
