//! Lines that say what went wrong.

ghost use Rattle.std.specs.Prelude.{◌≡◌, ◌*◌, ◌++◌, [], ◌∷◌, codes, decimal, length, map, IsTrue, OnOk, OnErr};
ghost use Rattle.hex.specs.Hex.{encode_lower};
ghost use Rattle.vt_base.specs.Faults.{HasCause};
ghost use Rattle.vt_conf.specs.Causes.{cause_text};
ghost use Rattle.vt_out.specs.Streams.{AppendsPrefix};
ghost use Rattle.run_base.specs.Change.{sink_change, Attempts};
ghost use Rattle.run_base.specs.Errors.{line, outcome_line, server_error_line};
ghost use Rattle.run_base.specs.Fields.{field_name, advice_on, value_text};

use crate::error::CommandError;
use crate::printing::put_pieces;
use itoa::Buffer;
use vt_base::{Failed, FieldValue, MountField, Score, why_text};
use vt_client::ClientErr;
use vt_conf::{ConfCause, conf_text};
use vt_out::Sink;
use vt_remote::RemoteError;

/// Says why a command did not end well. Where it did, nothing is said.
pub fn complain_of<F: Sink>(sink: &mut F, outcome: &Result<(), CommandError>)
    ensures { Attempts (sink_change F.Sink sink.old sink.new) (outcome_line outcome.now) }
{
    let Err(failure) = outcome else {
        return;
    };
    match failure {
        CommandError::BadWords => complain(sink, &[b"bad command line"]),
        CommandError::BadConf(bad) => complain_of_conf(sink, bad.line, &bad.why),
        CommandError::NotFormatted { file } => complain(
            sink,
            &[file.as_slice(), b": not formatted"],
        ),
        CommandError::TooSmall { file, len, need } => complain_of_len(
            sink,
            file.as_slice(),
            *len,
            *need,
        ),
        CommandError::Disagree {
            file,
            field,
            found,
            want,
        } => complain_of_field(sink, file.as_slice(), *field, *found, *want),
        CommandError::SameName { file, other } => complain(
            sink,
            &[file.as_slice(), b": name is that of ", other.as_slice()],
        ),
        CommandError::DiskFault => complain(sink, &[b"disk fault"]),
        CommandError::BadNumber(at) => complain_at(sink, b"bad number at ", *at),
        CommandError::BadName(at) => complain_at(sink, b"bad name at ", *at),
        CommandError::BadScore(at) => complain_at(sink, b"bad score at ", *at),
        CommandError::BadArchive(at) => complain_at(sink, b"bad archive at ", *at),
        CommandError::TooDeep(at) => complain_at(sink, b"too deep at ", *at),
        CommandError::TooLong(at) => complain_at(sink, b"too long at ", *at),
        CommandError::Cut(taken) => complain_at(sink, b"cut at ", *taken),
        CommandError::Malformed(place) => complain_at(sink, b"malformed at ", *place),
        CommandError::Spent(taken) => complain_at(sink, b"spent at ", *taken),
        CommandError::ReadFault => complain(sink, &[b"read fault"]),
        CommandError::FileFault => complain(sink, &[b"read fault"]),
        CommandError::FolderFault => complain(sink, &[b"read fault"]),
        CommandError::WriteFault => complain(sink, &[b"write fault"]),
        CommandError::NoMemory => complain(sink, &[b"no memory"]),
        CommandError::Damaged { want, found } => complain_of_damage(sink, want, found),
        CommandError::IndexFull => complain(sink, &[b"index full"]),
        CommandError::ArenasFull => complain(sink, &[b"arenas full"]),
        CommandError::Refused(why) => complain(sink, &[b"refused: ", why_text(why).as_bytes()]),
        CommandError::NoBlock(text) => complain(sink, &[b"refused: ", text.as_slice()]),
        CommandError::Server(bad) => complain_of_server(sink, bad),
    }
}

/// Writes a line on a server that wasn't reached, or didn't answer what was asked.
fn complain_of_server<F: Sink>(sink: &mut F, bad: &RemoteError)
    ensures { Attempts (sink_change F.Sink sink.old sink.new) (server_error_line bad.now) }
{
    let RemoteError::Refused(why) = bad else {
        return complain(sink, &[b"read fault"]);
    };
    match why {
        ClientErr::ReadFault => complain(sink, &[b"read fault"]),
        ClientErr::WriteFault => complain(sink, &[b"write fault"]),
        ClientErr::NoMemory => complain(sink, &[b"no memory"]),
        ClientErr::WrongScore { want, found } => complain_of_scores(sink, want, found),
        ClientErr::Remote(text) => complain(sink, &[b"refused: ", text.as_slice()]),
        ClientErr::Cut => complain(sink, &[b"refused: ", b"peer cut"]),
        ClientErr::BadReply(_) => complain(sink, &[b"refused: ", b"bad reply"]),
        ClientErr::NoVersion => complain(sink, &[b"refused: ", b"no version"]),
        ClientErr::Spent => complain(sink, &[b"refused: ", b"client spent"]),
    }
}

/// Writes a line on a score that is another than was wanted.
fn complain_of_scores<F: Sink>(sink: &mut F, want: &Score, found: &Score)
    ensures { Attempts (sink_change F.Sink sink.old sink.new) (line (codes "damaged: want "
        ∷ encode_lower want.now.0 ∷ codes ", found " ∷ encode_lower found.now.0 ∷ [])) }
{
    let mut want_digits = [0; 40];
    let mut found_digits = [0; 40];
    complain(
        sink,
        &[
            b"damaged: want ",
            hexadecimal(&mut want_digits, &want.0),
            b", found ",
            hexadecimal(&mut found_digits, &found.0),
        ],
    );
}

/// Writes a line on a configuration that is refused.
fn complain_of_conf<F: Sink>(sink: &mut F, number: usize, why: &ConfCause)
    ensures { Attempts (sink_change F.Sink sink.old sink.new) (line (codes "config line "
        ∷ decimal number ∷ codes ": " ∷ cause_text why.now ∷ [])) }
{
    let mut digits = Buffer::new();
    complain(
        sink,
        &[
            b"config line ",
            digits.format(number).as_bytes(),
            b": ",
            conf_text(why).as_bytes(),
        ],
    );
}

/// Writes a line on a file that is too short.
fn complain_of_len<F: Sink>(sink: &mut F, file: &[u8], len: u64, need: u64)
    ensures { Attempts (sink_change F.Sink sink.old sink.new) (line (file.now ∷ codes ": too small: "
        ∷ decimal len ∷ codes ", need " ∷ decimal need ∷ [])) }
{
    let mut len_digits = Buffer::new();
    let mut need_digits = Buffer::new();
    complain(
        sink,
        &[
            file,
            b": too small: ",
            len_digits.format(len).as_bytes(),
            b", need ",
            need_digits.format(need).as_bytes(),
        ],
    );
}

/// Writes a line on a field that is another than was wanted.
fn complain_of_field<F: Sink>(sink: &mut F, file: &[u8], field: MountField, found: u128, want: u128)
    ensures { Attempts (sink_change F.Sink sink.old sink.new) (line (file.now ∷ codes ": "
        ∷ field_name field ∷ codes " is " ∷ decimal found ∷ codes ", want " ∷ decimal want
        ∷ advice_on field found ∷ [])) }
{
    let mut found_digits = Buffer::new();
    let mut want_digits = Buffer::new();
    complain(
        sink,
        &[
            file,
            b": ",
            name_of(field),
            b" is ",
            found_digits.format(found).as_bytes(),
            b", want ",
            want_digits.format(want).as_bytes(),
            advice_on(field, found),
        ],
    );
}

/// What is to be done where a field says this, for the line's end.
fn advice_on<'a>(field: MountField, found: u128) -> &'a [u8]
    ensures { result.now ≡ advice_on field found }
{
    match field {
        MountField::State if found == 2 => b": run buildindex",
        _ => b"",
    }
}

/// Writes a line on damage.
fn complain_of_damage<F: Sink>(sink: &mut F, want: &FieldValue, found: &FieldValue)
    ensures { Attempts (sink_change F.Sink sink.old sink.new) (line (codes "damaged: want "
        ∷ value_text want.now ∷ codes ", found " ∷ value_text found.now ∷ [])) }
{
    let mut want_digits = Digits::new();
    let mut found_digits = Digits::new();
    complain(
        sink,
        &[
            b"damaged: want ",
            want_digits.of(want),
            b", found ",
            found_digits.of(found),
        ],
    );
}

/// Room for the digits of a value.
#[derive(Drop)]
struct Digits {
    /// For those of a number.
    decimal: Buffer,
    /// Two for each byte: 40 for a score, and the first 8 for a magic number.
    hexadecimal: [u8; 40],
}

impl Digits {
    /// Room for the longest value, which is a number of 128 bits or a score.
    fn new() -> Self {
        Digits {
            decimal: Buffer::new(),
            hexadecimal: [0; 40],
        }
    }

    /// The digits of this value.
    fn of(&mut self, value: &FieldValue) -> &[u8]
        ensures { result.now ≡ value_text value.now }
    {
        match value {
            FieldValue::Number(n) => self.decimal.format(*n).as_bytes(),
            FieldValue::Score(score) => hexadecimal(&mut self.hexadecimal, &score.0),
            FieldValue::Magic(bytes) => hexadecimal(&mut self.hexadecimal[..8], bytes),
        }
    }
}

/// Fills the room with the digits of these bytes.
pub fn hexadecimal<'a>(room: &'a mut [u8], bytes: &[u8]) -> &'a [u8]
    requires { length room.now ≡ 2 * length bytes.now }
    ensures { result.now ≡ encode_lower bytes.now }
{
    // (it fails only where the room isn't twice the bytes)
    let _ = hex::encode_to_slice(bytes, room);
    room
}

/// What a field is called.
fn name_of<'a>(field: MountField) -> &'a [u8]
    ensures { result.now ≡ field_name field }
{
    match field {
        MountField::Version => b"version",
        MountField::Number => b"number",
        MountField::Sealed => b"sealed",
        MountField::Used => b"used",
        MountField::Last => b"last",
        MountField::Clumps => b"clumps",
        MountField::ArenaSize => b"arenasize",
        MountField::Count => b"count",
        MountField::State => b"state",
        MountField::First => b"first",
        MountField::Total => b"total",
        MountField::Mark => b"mark",
        MountField::M => b"m",
        MountField::K => b"k",
        MountField::Crowd => b"crowd",
        MountField::Arenas => b"arenas",
        MountField::Buckets => b"buckets",
    }
}

/// Writes a line with a place at its end.
fn complain_at<F: Sink>(sink: &mut F, what: &[u8], place: u64)
    ensures { Attempts (sink_change F.Sink sink.old sink.new)
        (line (what.now ∷ decimal place ∷ [])) }
{
    let mut digits = Buffer::new();
    complain(sink, &[what, digits.format(place).as_bytes()]);
}

/// Writes a line of these pieces, as far as the sink takes it.
fn complain<F: Sink>(sink: &mut F, pieces: &[&[u8]])
    ensures { Attempts (sink_change F.Sink sink.old sink.new)
        (line (map (λ piece. piece.now) pieces.now)) }
{
    // (where the fault sink fails there is nobody left to tell; the status stays)
    let _ = put_line(sink, pieces);
}

/// Puts a line of these pieces, until a put fails.
pub fn put_line<F: Sink>(sink: &mut F, pieces: &[&[u8]]) -> Result<(), Failed>
    ensures appended { OnOk result (IsTrue F.tells → F.written sink.new
        ≡ F.written sink.old ++ line (map (λ piece. piece.now) pieces.now)) }
    ensures failed { OnErr result (IsTrue F.tells → AppendsPrefix (F.written sink.old)
        (F.written sink.new) (line (map (λ piece. piece.now) pieces.now))) }
    ensures cause { HasCause result (F.faults sink.old) (F.faults sink.new) }
{
    sink.put(b"venti: ")?;
    put_pieces(sink, pieces)?;
    sink.put(b"\n")
}
