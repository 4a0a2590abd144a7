//! Folders, of which each call that fails is told.

use crate::teller::{Call, Teller};
use crate::told::{Told, ToldAs};
use std::alloc::Global;
use std::io;
use std::io::ErrorKind;
use vt_host::{FolderCalls, Look, PieceCalls};

impl<C: FolderCalls, T: Teller + Copy> FolderCalls for Told<C, T> {
    type File = ToldAs<C::File, T>;

    ghost tells = { C.tells };

    ghost made = { λ told. C.made told.calls };

    ghost still = { C.still };

    ghost look_at = { C.look_at };

    ghost names_at = { C.names_at };

    /// One more, which tells the same teller.
    fn another(&self) -> Told<C, T> {
        Told {
            calls: self.calls.another(),
            alloc: self.alloc,
            teller: self.teller,
        }
    }

    /// Looks once. That nothing stands at the path of an item is no failure, since it may have gone
    /// meanwhile; at that of the folder that was named, which ends in `/.`, it is one.
    fn look(&mut self, path: &str) -> io::Result<Look> {
        match self.calls.look(path) {
            Ok(found) => Ok(found),
            Err(why) => {
                if why.kind() != ErrorKind::NotFound || path.ends_with("/.") {
                    self.teller.tell(Call::LookAt, path, &why);
                }
                Err(why)
            }
        }
    }

    /// Lists it once.
    fn names(&mut self, alloc: Global, path: &str) -> io::Result<Vec<u8>> {
        match self.calls.names(alloc, path) {
            Ok(names) => Ok(names),
            Err(why) => {
                self.teller.tell(Call::List, path, &why);
                Err(why)
            }
        }
    }

    /// Opens it once, and keeps its path.
    fn open(&mut self, path: &str) -> io::Result<ToldAs<C::File, T>> {
        match self.calls.open(path) {
            Ok(file) => Ok(self.named(file, path)),
            Err(why) => {
                self.teller.tell(Call::Open, path, &why);
                Err(why)
            }
        }
    }
}

impl<F: PieceCalls, T: Teller + Copy> PieceCalls for ToldAs<F, T> {
    ghost tells = { F.tells };

    ghost made = { λ file. F.made file.calls };

    ghost still = { F.still };

    ghost bytes_at = { F.bytes_at };

    ghost path = { λ file. F.path file.calls };

    /// Reads it once.
    fn read_piece(&mut self, start: u64, buf: &mut [u8]) -> io::Result<usize> {
        let n = self.calls.read_piece(start, buf);
        self.label.hear(Call::Read, &n);
        n
    }
}
