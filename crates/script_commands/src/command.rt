// One line of the script as a command.
ghost use Rattle.std.specs.Prelude.{◌≡◌, ◌≤◌, length, take, drop};
ghost use Rattle.lists.specs.Options.{as_option};
ghost use Rattle.script_words.specs.Words.{numbers_of};
ghost use Rattle.script_words.specs.Reading.{behind_word};
ghost use Rattle.script_commands.specs.Kind.{TimeCode, Request, Reply, Reading, Out, SetWatchdog, Sheet, SheetBoth, Next};
ghost use Rattle.script_commands.specs.Script.{or_bad, numbered, with_bytes, alone, commands, named, command_of};

use lists::equal::same;
use script_hex::is_bytes;
use script_words::{numbers, word_length};

#[derive(Drop)]
pub enum Command {
    // An empty line, or one that begins with `#`.
    Skip,
    // A line that is no command.
    Bad,
    // The hex digits are the line's bytes from `at` on.
    Load {
        at: usize,
    },
    Clear,
    TimeCode {
        byte: u8,
        clock: u32,
        room: u16,
    },
    Request {
        initiator: u8,
        target: u8,
        kind: u8,
        length: u16,
    },
    Reply {
        initiator: u8,
        number: u16,
        status: u8,
    },
    Reading {
        clock: u32,
    },
    Out {
        room: u16,
    },
    Watchdog,
    SetWatchdog {
        last: u32,
        seen: u32,
        reported: u32,
        least: u32,
        greatest: u32,
    },
    // The routers of the command's way and of the reply's.
    Sheet {
        there: u8,
        home: u8,
        rate: u16,
        length: u16,
        a: u32,
        d: u32,
        f: u32,
        g: u32,
    },
    Next {
        initiator: u8,
        target: u8,
        length: u16,
        slot: u8,
    },
    Blank,
    // As for a load.
    Holds {
        at: usize,
    },
}

// The bound of a number that may be any of 32 bits.
const ANY: u32 = 4_294_967_295;

// A command that is its name and one byte string: "load HEX", "holds HEX".
fn with_bytes(line: &[u8], end: usize, command: Command) -> Option<Command>
    requires { end ≤ length line.now }
    ensures { or_bad result ≡ with_bytes command (behind_word (drop end line.now)) }
{
    if end == line.len() {
        return None;
    }
    let word = &line[end + 1..];
    if word_length(word) != word.len() || !is_bytes(word) {
        return None;
    }
    Some(command)
}

// A command that is its name and no word more.
fn alone(line: &[u8], end: usize, command: Command) -> Option<Command>
    requires { end ≤ length line.now }
    ensures { or_bad result ≡ alone command (behind_word (drop end line.now)) }
{
    if end < line.len() {
        return None;
    }
    Some(command)
}

// The numbers behind a name, each at most its bound.
fn numbers_behind<const N: usize>(line: &[u8], end: usize, bounds: &[u32; N]) -> Option<[u32; N]>
    requires { end ≤ length line.now }
    ensures { result ≡ as_option (numbers_of bounds.now (behind_word (drop end line.now))) }
{
    let mut ns = [0u32; N];
    if !numbers(line, end, bounds, &mut ns) {
        return None;
    }
    Some(ns)
}

// "BYTE CLOCK BUF", "BUF (0 to 4,096)"
fn time_code(line: &[u8], end: usize) -> Option<Command>
    requires { end ≤ length line.now }
    ensures { or_bad result ≡ numbered TimeCode (behind_word (drop end line.now)) }
{
    let [byte, clock, room] = numbers_behind(line, end, &[255, ANY, 4_096])?;
    Some(Command::TimeCode {
        byte: byte as u8,
        clock,
        room: room as u16,
    })
}

// "I T K L", "(I, T, K 0 to 255, L 0 to 65,535)"
fn request(line: &[u8], end: usize) -> Option<Command>
    requires { end ≤ length line.now }
    ensures { or_bad result ≡ numbered Request (behind_word (drop end line.now)) }
{
    let [initiator, target, kind, length] = numbers_behind(line, end, &[255, 255, 255, 65_535])?;
    Some(Command::Request {
        initiator: initiator as u8,
        target: target as u8,
        kind: kind as u8,
        length: length as u16,
    })
}

// "I NUM STATUS", "(I, STATUS 0 to 255, NUM 0 to 65,535)"
fn reply(line: &[u8], end: usize) -> Option<Command>
    requires { end ≤ length line.now }
    ensures { or_bad result ≡ numbered Reply (behind_word (drop end line.now)) }
{
    let [initiator, number, status] = numbers_behind(line, end, &[255, 65_535, 255])?;
    Some(Command::Reply {
        initiator: initiator as u8,
        number: number as u16,
        status: status as u8,
    })
}

fn reading(line: &[u8], end: usize) -> Option<Command>
    requires { end ≤ length line.now }
    ensures { or_bad result ≡ numbered Reading (behind_word (drop end line.now)) }
{
    let [clock] = numbers_behind(line, end, &[ANY])?;
    Some(Command::Reading { clock })
}

// "ROOM bytes (0 to 32,768)"
fn out(line: &[u8], end: usize) -> Option<Command>
    requires { end ≤ length line.now }
    ensures { or_bad result ≡ numbered Out (behind_word (drop end line.now)) }
{
    let [room] = numbers_behind(line, end, &[32_768])?;
    Some(Command::Out { room: room as u16 })
}

// "LAST SEEN REPORTED LEAST GREATEST"
fn set_watchdog(line: &[u8], end: usize) -> Option<Command>
    requires { end ≤ length line.now }
    ensures { or_bad result ≡ numbered SetWatchdog (behind_word (drop end line.now)) }
{
    let [last, seen, reported, least, greatest] = numbers_behind(line, end, &[ANY; 5])?;
    Some(Command::SetWatchdog {
        last,
        seen,
        reported,
        least,
        greatest,
    })
}

// "R 0 to 255, S, D 0 to 65,535, latencies 0 to 4,294,967,295"
fn sheet(line: &[u8], end: usize) -> Option<Command>
    requires { end ≤ length line.now }
    ensures { or_bad result ≡ numbered Sheet (behind_word (drop end line.now)) }
{
    let bounds = [255, 65_535, 65_535, ANY, ANY, ANY, ANY];
    let [routers, rate, length, a, d, f, g] = numbers_behind(line, end, &bounds)?;
    Some(Command::Sheet {
        there: routers as u8,
        home: routers as u8,
        rate: rate as u16,
        length: length as u16,
        a,
        d,
        f,
        g,
    })
}

// "RC routers on the command's way and RR on the reply's"
fn sheet_both(line: &[u8], end: usize) -> Option<Command>
    requires { end ≤ length line.now }
    ensures { or_bad result ≡ numbered SheetBoth (behind_word (drop end line.now)) }
{
    let bounds = [255, 255, 65_535, 65_535, ANY, ANY, ANY, ANY];
    let [there, home, rate, length, a, d, f, g] = numbers_behind(line, end, &bounds)?;
    Some(Command::Sheet {
        there: there as u8,
        home: home as u8,
        rate: rate as u16,
        length: length as u16,
        a,
        d,
        f,
        g,
    })
}

// "I T D SLOT", "(I, T, SLOT 0 to 255, D 0 to 65,535)"
fn next(line: &[u8], end: usize) -> Option<Command>
    requires { end ≤ length line.now }
    ensures { or_bad result ≡ numbered Next (behind_word (drop end line.now)) }
{
    let [initiator, target, length, slot] = numbers_behind(line, end, &[255, 255, 65_535, 255])?;
    Some(Command::Next {
        initiator: initiator as u8,
        target: target as u8,
        length: length as u16,
        slot: slot as u8,
    })
}

// The command of the name that ends at a place, by the words behind it.
fn named(line: &[u8], end: usize) -> Option<Command>
    requires { end ≤ length line.now }
    ensures { or_bad result ≡ named commands (take end line.now) (behind_word (drop end line.now)) }
{
    let name = &line[..end];
    // Kept: tried, and the proof didn't close: a `match` on byte strings leaves 45 goals at `_`, and its facts on the bytes have no names.
    if same(name, b"load") {
        with_bytes(line, end, Command::Load { at: 5 })
    } else if same(name, b"clear") {
        alone(line, end, Command::Clear)
    } else if same(name, b"tc") {
        time_code(line, end)
    } else if same(name, b"req") {
        request(line, end)
    } else if same(name, b"rep") {
        reply(line, end)
    } else if same(name, b"clk") {
        reading(line, end)
    } else if same(name, b"out") {
        out(line, end)
    } else if same(name, b"wd") {
        alone(line, end, Command::Watchdog)
    } else if same(name, b"setwd") {
        set_watchdog(line, end)
    } else if same(name, b"sheet") {
        sheet(line, end)
    } else if same(name, b"sheet2") {
        sheet_both(line, end)
    } else if same(name, b"next") {
        next(line, end)
    } else if same(name, b"blank") {
        alone(line, end, Command::Blank)
    } else if same(name, b"holds") {
        with_bytes(line, end, Command::Holds { at: 6 })
    } else {
        None
    }
}

pub fn command_of(line: &[u8]) -> Command
    ensures { result ≡ command_of line.now }
{
    match line {
        [] | [b'#', ..] => Command::Skip,
        _ => named(line, word_length(line)).unwrap_or(Command::Bad),
    }
}
