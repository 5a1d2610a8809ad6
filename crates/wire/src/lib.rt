// A session's bytes: the command type, the reader that finds commands, and the header.
#![tactic(auto)]

ghost use Rattle.std.specs.Prelude.{◌≡◌, length, ltb};
ghost use Rattle.rules.specs.Table.{all};
ghost use Rattle.rules.specs.Bytes.{byte};
ghost use Rattle.wire.specs.Meaning.{front_of, front_in, opened, shown_in};

use limits::MAX_SESSION;
use refusals::Refusal;

// The limits of a header's counts, in their types.
const MAX_NODES: u8 = limits::MAX_NODES as u8;

const MAX_SHEETS: u8 = limits::MAX_SHEETS as u8;

// A command with its operands. A sheet number, one byte in a session, is an index from here on. With WRITE's content before its sheet no two fields
// overlap: those that do are packed and taken apart again at every command.
#[derive(Clone, Copy)]
pub enum Command {
    Begin(u8),
    Read(u8, usize),
    Write(u8, u32, usize),
    Submit(u8),
    Take(u8),
    Decide(u8),
    Apply(u8, u8),
    GiveUp(u8),
}

// Why no command is read: a byte that is none, or operands cut short.
#[derive(Clone, Copy)]
pub enum Unread {
    NoCommand,
    CutShort,
}

impl From<Unread> for Refusal {
    ghost use Rattle.wire.specs.Meaning.{refusal_for};

    ghost from_gives = { λ u r. r ≡ refusal_for u };

    fn from(u: Unread) -> Refusal {
        match u {
            Unread::NoCommand => Refusal::UnknownCommand,
            Unread::CutShort => Refusal::CutShort,
        }
    }
}

// A session's node count and sheet count.
#[derive(Clone, Copy)]
pub struct Header {
    pub nodes: u8,
    pub sheets: u16,
}

// What stands at the front of the rest of a session: a command with the number of its bytes, or nothing.
pub fn read_next(rest: &[u8]) -> Result<Option<(Command, usize)>, Unread>
    ensures { front_of result ≡ front_in rest.now }
{
    let [byte, operands @ ..] = rest else {
        return Ok(None);
    };
    match *byte {
        1 => {
            let [t, ..] = operands else {
                return Err(Unread::CutShort);
            };
            Ok(Some((Command::Begin(*t), 2)))
        }
        2 => {
            let [t, k, ..] = operands else {
                return Err(Unread::CutShort);
            };
            Ok(Some((Command::Read(*t, *k as usize), 3)))
        }
        3 => {
            let [t, k, a, b, c, d, ..] = operands else {
                return Err(Unread::CutShort);
            };
            let v = u32::from_be_bytes([*a, *b, *c, *d]);
            Ok(Some((Command::Write(*t, v, *k as usize), 7)))
        }
        4 => {
            let [t, ..] = operands else {
                return Err(Unread::CutShort);
            };
            Ok(Some((Command::Submit(*t), 2)))
        }
        5 => {
            let [n, ..] = operands else {
                return Err(Unread::CutShort);
            };
            Ok(Some((Command::Take(*n), 2)))
        }
        6 => {
            let [t, ..] = operands else {
                return Err(Unread::CutShort);
            };
            Ok(Some((Command::Decide(*t), 2)))
        }
        7 => {
            let [n, t, ..] = operands else {
                return Err(Unread::CutShort);
            };
            Ok(Some((Command::Apply(*n, *t), 3)))
        }
        8 => {
            let [t, ..] = operands else {
                return Err(Unread::CutShort);
            };
            Ok(Some((Command::GiveUp(*t), 2)))
        }
        _ => Err(Unread::NoCommand),
    }
}

// How many bytes are shown where a run stops at the front of the rest of a session. It is asked once, at the end: carried along with each command
// it would cost a twentieth of the run.
pub fn shown(rest: &[u8]) -> usize
    ensures { result ≡ shown_in (front_in rest.now) (length rest.now) }
{
    match read_next(rest) {
        Ok(None) => 0,
        Ok(Some((_, z))) => z,
        Err(Unread::NoCommand) => 1,
        Err(Unread::CutShort) => rest.len(),
    }
}

// Whether all owners are below n.
pub fn owners_below(owners: &[u8], n: u8) -> bool
    ensures { result ≡ all (length owners.now) (λ k. ltb (byte owners.now k) n) }
{
    owners.iter().all(|o| *o < n)
}

// The node count and the sheet count, where a session opens; where it does not, that is refusal 1.
pub fn read_header(session: &[u8]) -> Option<Header>
    ensures { result ≡ opened session.now }
{
    let [nodes, sheets, rest @ ..] = session else {
        return None;
    };
    let n = *nodes;
    let m = *sheets;
    if MAX_SESSION < session.len() || rest.len() < m as usize {
        return None;
    }
    if n < 1 || MAX_NODES < n || m < 1 || MAX_SHEETS < m {
        return None;
    }
    if !owners_below(&rest[..m as usize], n) {
        return None;
    }
    Some(Header {
        nodes: n,
        sheets: m as u16,
    })
}
