//! Files, of which each call that fails is told.

use crate::teller::{Call, Teller};
use crate::told::{Told, ToldAs};
use std::fs::OpenOptions;
use std::io;
use vt_host::{FileCalls, Opener};

impl<O: Opener, T: Teller + Copy> Opener for Told<O, T> {
    type File = ToldAs<O::File, T>;

    ghost opened = { λ told. O.opened told.calls };

    ghost still = { O.still };

    ghost holds = { O.holds };

    /// Opens it once, and keeps its name.
    fn open(&mut self, how: &OpenOptions, name: &str) -> io::Result<ToldAs<O::File, T>> {
        match self.calls.open(how, name) {
            Ok(file) => Ok(self.named(file, name)),
            Err(why) => {
                self.teller.tell(Call::Open, name, &why);
                Err(why)
            }
        }
    }
}

impl<F: FileCalls, T: Teller + Copy> FileCalls for ToldAs<F, T> {
    ghost tells = { F.tells };

    ghost made = { λ file. F.made file.calls };

    ghost bytes = { λ file. F.bytes file.calls };

    ghost images = { λ file. F.images file.calls };

    ghost kept = { λ file. F.kept file.calls };

    ghost are_bytes = { λ file. F.are_bytes file.calls };

    ghost read_is_image = { λ file. F.read_is_image file.calls };

    ghost images_are_bytes = { λ file. F.images_are_bytes file.calls };

    /// Measures it once.
    fn measure(&mut self) -> io::Result<u64> {
        let len = self.calls.measure();
        self.label.hear(Call::Measure, &len);
        len
    }

    /// Changes its length once.
    fn resize(&mut self, len: u64) -> io::Result<()> {
        let done = self.calls.resize(len);
        self.label.hear(Call::Resize, &done);
        done
    }

    /// Reads it once.
    fn read_at(&mut self, start: u64, buf: &mut [u8]) -> io::Result<()> {
        let done = self.calls.read_at(start, buf);
        self.label.hear(Call::Read, &done);
        done
    }

    /// Writes it once.
    fn write_at(&mut self, start: u64, chunk: &[u8]) -> io::Result<()> {
        let done = self.calls.write_at(start, chunk);
        self.label.hear(Call::Write, &done);
        done
    }

    /// Asks for its lock once.
    fn lock(&mut self) -> io::Result<()> {
        let done = self.calls.lock();
        self.label.hear(Call::Lock, &done);
        done
    }

    /// Syncs it once.
    fn sync(&mut self) -> io::Result<()> {
        let done = self.calls.sync();
        self.label.hear(Call::Sync, &done);
        done
    }
}
