//! A system whose calls all fail, or all succeed, and a page that lines are written to.

ghost use Rattle.std.specs.Prelude.{◌≡◌, IfOk};

use std::alloc::Global;
use std::cell::RefCell;
use std::fs::OpenOptions;
use std::io;
use std::io::{ErrorKind, Write};
use std::time::Duration;
use vt_host::{
    ClockCalls, Connector, FileCalls, FolderCalls, Look, Opener, PieceCalls, ReadCalls, WriteCalls,
};
use vt_out::ItemKind;

/// What each call answers: this error or, without one, that it is done. It tells nothing.
#[derive(Clone, Copy)]
pub struct Fake {
    pub fails: Option<ErrorKind>,
    /// Whether what is opened or connected comes out nevertheless.
    pub opens: bool,
}

impl Fake {
    /// An answer that fails, or has this value.
    fn answer<V: Copy>(&self, value: V) -> io::Result<V>
        ensures { IfOk result (λ answered. answered ≡ value) }
    {
        match self.fails {
            Some(kind) => Err(io::Error::from(kind)),
            None => Ok(value),
        }
    }

    /// What is opened.
    fn opened(&self) -> io::Result<Fake> {
        if self.opens {
            Ok(*self)
        } else {
            self.answer(*self)
        }
    }
}

impl Opener for Fake {
    ghost use Rattle.std.specs.Prelude.{None, [], false};

    type File = Fake;

    ghost opened = { λ _. [] };

    ghost still = { false };

    ghost holds = { λ _. None };

    fn open(&mut self, _how: &OpenOptions, _name: &str) -> io::Result<Fake> {
        self.opened()
    }
}

impl FileCalls for Fake {
    ghost use Rattle.std.specs.Prelude.{[], false};
    ghost use Rattle.vt_host.specs.Untold.{untold};

    ghost tells = { false };

    ghost made = { λ _. [] };

    ghost bytes = { λ _. [] };

    ghost images = { λ _ _. Unit {0} };

    ghost kept = { λ _. false };

    ghost are_bytes = { λ _ tells. untold tells };

    ghost read_is_image = { λ _ tells. untold tells };

    ghost images_are_bytes = { λ _ _ tells _. untold tells };

    fn measure(&mut self) -> io::Result<u64> {
        self.answer(0)
    }

    fn resize(&mut self, _len: u64) -> io::Result<()> {
        self.answer(())
    }

    fn read_at(&mut self, _start: u64, _buf: &mut [u8]) -> io::Result<()> {
        self.answer(())
    }

    fn write_at(&mut self, _start: u64, _chunk: &[u8]) -> io::Result<()> {
        self.answer(())
    }

    fn lock(&mut self) -> io::Result<()> {
        self.answer(())
    }

    fn sync(&mut self) -> io::Result<()> {
        self.answer(())
    }
}

impl WriteCalls for Fake {
    ghost use Rattle.std.specs.Prelude.{None, [], false};

    ghost tells = { false };

    ghost made = { λ _. [] };

    ghost went = { λ _. [] };

    ghost contents = { λ _. None };

    fn put_all(&mut self, _piece: &[u8]) -> io::Result<()> {
        self.answer(())
    }

    fn flush_all(&mut self) -> io::Result<()> {
        self.answer(())
    }
}

impl ReadCalls for Fake {
    ghost use Rattle.std.specs.Prelude.{None, [], false};
    ghost use Rattle.vt_base.specs.Bytes.{AreBytes-none};

    ghost tells = { false };

    ghost made = { λ _. [] };

    ghost given = { λ _. [] };

    ghost left = { λ _. [] };

    ghost remaining = { λ _. None };

    ghost left_bytes = { λ _. AreBytes-none };

    fn read_some(&mut self, _buf: &mut [u8]) -> io::Result<usize> {
        self.answer(0)
    }
}

impl Connector for Fake {
    ghost use Rattle.std.specs.Prelude.{[], false};
    ghost use Rattle.vt_dial.specs.Dialled.{nobody};

    type Input = Fake;

    type Output = Fake;

    ghost tells = { false };

    ghost connected = { λ _. [] };

    ghost dialled = { λ _. nobody };

    fn connect(&mut self, _host: &str, _port: u16) -> io::Result<(Fake, Fake)> {
        let both = self.opened()?;
        Ok((both, both))
    }

    fn close(&mut self, _input: Fake, _output: Fake) {}
}

impl FolderCalls for Fake {
    ghost use Rattle.std.specs.Prelude.{None, [], false};

    type File = Fake;

    ghost tells = { false };

    ghost made = { λ _. [] };

    ghost still = { false };

    ghost look_at = { λ _. None };

    ghost names_at = { λ _. None };

    fn another(&self) -> Fake {
        *self
    }

    fn look(&mut self, _path: &str) -> io::Result<Look> {
        self.answer(Look {
            kind: ItemKind::File,
            mode: 0,
            mtime: 0,
            uid: 0,
            gid: 0,
        })
    }

    fn names(&mut self, alloc: Global, _path: &str) -> io::Result<Vec<u8>> {
        self.answer(())?;
        Ok(Vec::new(alloc))
    }

    fn open(&mut self, _path: &str) -> io::Result<Fake> {
        self.opened()
    }
}

impl PieceCalls for Fake {
    ghost use Rattle.std.specs.Prelude.{None, [], false};

    ghost tells = { false };

    ghost made = { λ _. [] };

    ghost still = { false };

    ghost bytes_at = { λ _. None };

    ghost path = { λ _. [] };

    fn read_piece(&mut self, _start: u64, _buf: &mut [u8]) -> io::Result<usize> {
        self.answer(0)
    }
}

impl ClockCalls for Fake {
    ghost use Rattle.std.specs.Prelude.{None, false};

    ghost tells = { false };

    ghost answer = { λ _. None };

    fn time(&mut self) -> io::Result<Duration> {
        self.answer(Duration::from_secs(0))
    }
}

/// Where lines are written.
#[derive(Clone, Copy)]
pub struct Page<'a>(pub &'a RefCell<Vec<u8>>);

impl Write for Page<'_> {
    fn write(&mut self, buf: &[u8]) -> io::Result<usize> {
        match self.0.try_borrow_mut() {
            Ok(mut bytes) => {
                bytes.extend_from_slice(buf)?;
                Ok(buf.len())
            }
            Err(_) => Err(io::Error::from(ErrorKind::Other)),
        }
    }

    fn flush(&mut self) -> io::Result<()> {
        Ok(())
    }
}

/// Whether a page has just `venti: ` and this line or, where that is none, nothing.
pub fn has_line(page: &RefCell<Vec<u8>>, line: Option<&str>) -> bool {
    let Ok(page) = page.try_borrow() else {
        return false;
    };
    let Some(line) = line else {
        return page.is_empty();
    };
    let Some(behind) = page.as_slice().strip_prefix(b"venti: ") else {
        return false;
    };
    behind
        .strip_suffix(b"\n")
        .is_some_and(|told| told == line.as_bytes())
}
