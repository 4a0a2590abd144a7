//! Connections, of which each call that fails is told.

use crate::teller::{Call, Teller};
use crate::told::{Label, ToldAs};
use std::alloc::Global;
use std::io;
use vt_host::Connector;

/// Makes connections, and tells of each call that fails, of a connection's streams too.
#[derive(Drop)]
pub struct ToldNet<N, T> {
    /// What makes the connections.
    net: N,
    /// What names are made with.
    alloc: Global,
    teller: T,
    // Of the connection that was closed last: what became of it is told with its labels.
    /// The label of what came in, and below that of what went out.
    input: Label<T>,
    output: Label<T>,
}

impl<N: Connector, T: Teller + Copy> ToldNet<N, T> {
    ghost use Rattle.std.specs.Prelude.{◌≡◌};
    ghost use Rattle.vt_told.specs.Telling.{told_connector};

    /// What makes these connections, and tells of calls that fail.
    pub fn new(net: N, alloc: Global, teller: T) -> Self
        ensures { told_connector result ≡ net }
    {
        ToldNet {
            net,
            alloc,
            teller,
            input: Label::with(None, teller),
            output: Label::with(None, teller),
        }
    }

    /// The name of this host and port as configurations spell it.
    fn label(&self, host: &str, port: u16) -> Label<T> {
        let name = format!(in self.alloc; "tcp!{host}!{port}");
        Label::with(name.ok(), self.teller)
    }
}

impl<N: Connector, T: Teller + Copy> Connector for ToldNet<N, T> {
    ghost use Rattle.vt_told.specs.Telling.{labelled};

    type Input = ToldAs<N::Input, T>;

    type Output = ToldAs<N::Output, T>;

    ghost tells = { N.tells };

    ghost connected = { λ told. N.connected told.net };

    ghost dialled = { λ told. labelled told.input told.output (N.dialled told.net) };

    /// Makes one, and names both of its directions.
    fn connect(
        &mut self,
        host: &str,
        port: u16,
    ) -> io::Result<(ToldAs<N::Input, T>, ToldAs<N::Output, T>)> {
        match self.net.connect(host, port) {
            Ok((input, output)) => Ok((
                ToldAs {
                    calls: input,
                    label: self.label(host, port),
                },
                ToldAs {
                    calls: output,
                    label: self.label(host, port),
                },
            )),
            Err(why) => {
                self.label(host, port).tell(Call::Connect, &why);
                Err(why)
            }
        }
    }

    /// Closes it.
    fn close(&mut self, input: ToldAs<N::Input, T>, output: ToldAs<N::Output, T>) {
        let (input, input_label) = input.into_parts();
        let (output, output_label) = output.into_parts();
        self.net.close(input, output);
        self.input = input_label;
        self.output = output_label;
    }
}
