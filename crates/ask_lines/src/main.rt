//! Answers questions about the flattening of the design of a file, one a line of standard input. Instances, nets and ports are told by their
//! places, from 0: a path is `/` for the top, else `/` before the place of each instance.
//!
//! - `at PATH`: `cell LIB CELL`, by their places;
//! - `insts PATH`: `insts`, and the cell of each as `LIB/CELL`; `nets PATH`: `nets`, and the number of ends of each;
//! - `first PATH NET`, `net PATH PORT BIT` and `inner PATH PORT BIT`: `net PATH NET`;
//! - `pins PATH NET`, `drivers PATH NET` and `loads PATH NET`: a line `pin PATH PORT BIT` each, and `end`; `pin PATH NET`: the first alone;
//! - `fan-out PATH`: `net NET loads N` for each net of the occurrence that is its own first, and `end`;
//! - `same PATH NET PATH NET`: `yes` or `no`;
//! - `named TEXT`: `path PATH`, where TEXT is a path by identifiers; `named TEXT inst NAME`, `named TEXT net NAME` and
//!   `named TEXT port NAME`: `place N`, of what has that identifier in the occurrence;
//! - `again N QUESTION` asks so many times, and answers once.
//!
//! Where there is nothing, the answer is `none`; a line that is no question is answered by `what`.
#![tactic(auto)]

use ask_names::Names;
use edif_file::{DesignReader, NoDesign};
use flat_ask::{Ask, AskError};
use flat_items::{ItemRef, NetRef};
use net_pins::Pins;
use netlist_schema::{Design, NoMemory};
use std::alloc::{AllocError, AllocFailed, Global};
use std::io::{BufRead, BufReader, BufWriter, Write};
use std::{env, fs, io};
use thiserror::Error;

/// Why the program ends early.
#[derive(Debug, Error, Drop)]
enum Stop {
    #[error("{0}")]
    Io(#[from] io::Error),
    #[error("{0}")]
    NoDesign(#[from] NoDesign),
    #[error("{0}")]
    NoAsk(#[from] AskError),
    #[error("{0}")]
    NoMemory(#[from] NoMemory),
    #[error("a file is wanted")]
    NoFile,
}

impl From<AllocError> for Stop {
    fn from(error: AllocError) -> Stop {
        Stop::NoMemory(NoMemory::from(error))
    }
}

impl<T: Drop> From<AllocFailed<T>> for Stop {
    fn from(_error: AllocFailed<T>) -> Stop {
        Stop::NoMemory(NoMemory)
    }
}

/// The design of a file.
fn open(rt: &HostRuntime, name: &str) -> Result<Design, Stop> {
    let bytes = fs::read(rt, name)?;
    let mut reader = DesignReader::new(rt.alloc());
    reader.feed(&bytes)?;
    Ok(reader.finish()?)
}

/// A number, where the word is one.
fn number(word: Option<&str>) -> Option<u32> {
    match word?.parse::<u32>() {
        Ok(found) => Some(found),
        Err(_) => None,
    }
}

/// The steps of a path, where the word is one.
fn path_of(alloc: Global, word: Option<&str>) -> Result<Option<Vec<u32>>, Stop> {
    let mut steps = Vec::new(alloc);
    let Some(word) = word else {
        return Ok(None);
    };
    if word == "/" {
        return Ok(Some(steps));
    }
    for (place, part) in word.split('/').enumerate() {
        if place == 0 {
            continue;
        }
        match number(Some(part)) {
            Some(step) => steps.push(step)?,
            None => return Ok(None),
        }
    }
    Ok(Some(steps))
}

/// Writes a path.
fn write_path<W: Write>(out: &mut W, path: &[u32]) -> Result<(), Stop> {
    if path.is_empty() {
        write!(out, "/")?;
    }
    for step in path {
        write!(out, "/{step}")?;
    }
    Ok(())
}

/// Writes a net, where there is one.
fn write_net<W: Write>(out: &mut W, net: Option<NetRef<'_>>) -> Result<(), Stop> {
    match net {
        Some(net) => {
            write!(out, "net ")?;
            write_path(out, net.path)?;
            writeln!(out, " {}", net.net)?;
        }
        None => writeln!(out, "none")?,
    }
    Ok(())
}

/// Writes all pins of a net.
fn write_pins<W: Write>(out: &mut W, mut pins: Pins<'_, Design>) -> Result<(), Stop> {
    for _ in 0..u64::MAX {
        if !pins.advance()? {
            break;
        }
        if let Some(
            ItemRef::Pin {
                path,
                port,
                bit,
                first: _,
            },
        ) = pins.current()
        {
            write!(out, "pin ")?;
            write_path(out, path)?;
            writeln!(out, " {port} {bit}")?;
        }
        pins.skip_one();
    }
    writeln!(out, "end")?;
    Ok(())
}

/// Writes the first pin of a net, where it has one.
fn write_first_pin<W: Write>(out: &mut W, mut pins: Pins<'_, Design>) -> Result<(), Stop> {
    pins.advance()?;
    if let Some(
        ItemRef::Pin {
            path,
            port,
            bit,
            first: _,
        },
    ) = pins.current()
    {
        write!(out, "pin ")?;
        write_path(out, path)?;
        writeln!(out, " {port} {bit}")?;
    } else {
        writeln!(out, "none")?;
    }
    Ok(())
}

/// Writes how many pins each net of an occurrence loads, as far as it is the first of those connected with it.
fn write_fan_out<W: Write>(out: &mut W, ask: &Ask<Design>, path: &[u32]) -> Result<(), Stop> {
    let nets = u32::try_from(ask.nets_of(path).len()).unwrap_or(u32::MAX);
    for net in 0..nets {
        let first = ask.first_of(path, net)?;
        if first.path == path && first.net == net {
            let count = count_of(ask.loads(path, net)?)?;
            writeln!(out, "net {net} loads {count}")?;
        }
    }
    writeln!(out, "end")?;
    Ok(())
}

/// How many pins these are.
fn count_of(mut pins: Pins<'_, Design>) -> Result<u64, NoMemory> {
    for count in 0..u64::MAX {
        if !pins.advance()? {
            return Ok(count);
        }
        pins.skip_one();
    }
    Ok(u64::MAX)
}

/// Answers what is asked of a bit of an occurrence.
fn answer_bit<W: Write>(
    out: &mut W,
    ask: &Ask<Design>,
    what: &str,
    path: &[u32],
    port: u32,
    bit: u32,
) -> Result<(), Stop> {
    match what {
        "net" => write_net(out, ask.net_of(path, port, bit)?),
        _ => write_net(out, ask.inner_net_of(path, port, bit)?),
    }
}

/// Answers what is asked of a net.
fn answer_net<W: Write>(
    out: &mut W,
    ask: &Ask<Design>,
    what: &str,
    path: &[u32],
    net: u32,
) -> Result<(), Stop> {
    match what {
        "first" => write_net(out, Some(ask.first_of(path, net)?)),
        "pins" => write_pins(out, ask.pins_of(path, net)?),
        "pin" => write_first_pin(out, ask.pins_of(path, net)?),
        "drivers" => write_pins(out, ask.drivers(path, net)?),
        _ => write_pins(out, ask.loads(path, net)?),
    }
}

/// Answers what is asked of an occurrence.
fn answer_path<W: Write>(
    out: &mut W,
    ask: &Ask<Design>,
    what: &str,
    path: &[u32],
) -> Result<(), Stop> {
    match what {
        "at" => match ask.at(path) {
            Some(cell) => writeln!(out, "cell {} {}", cell.lib.0, cell.slot)?,
            None => writeln!(out, "none")?,
        },
        "fan-out" => write_fan_out(out, ask, path)?,
        "insts" => {
            write!(out, "insts")?;
            for inst in ask.insts_of(path).iter() {
                write!(out, " {}/{}", inst.of.lib.0, inst.of.slot)?;
            }
            writeln!(out)?;
        }
        _ => {
            write!(out, "nets")?;
            for net in ask.nets_of(path).iter() {
                write!(out, " {}", net.ends.as_slice().len())?;
            }
            writeln!(out)?;
        }
    }
    Ok(())
}

/// Answers whether two nets are one.
fn answer_same<W: Write>(
    out: &mut W,
    ask: &Ask<Design>,
    one: NetRef<'_>,
    other: NetRef<'_>,
) -> Result<(), Stop> {
    if ask.is_same_net(one, other)? {
        writeln!(out, "yes")?;
    } else {
        writeln!(out, "no")?;
    }
    Ok(())
}

/// Answers a question of one path or two, with numbers behind each.
fn answer_words<W: Write>(
    out: &mut W,
    ask: &Ask<Design>,
    alloc: Global,
    words: &[&str],
) -> Result<(), Stop> {
    let what = words.first().copied().unwrap_or("");
    let Some(path) = path_of(alloc, words.get(1).copied())? else {
        writeln!(out, "what")?;
        return Ok(());
    };
    let path = path.as_slice();
    let first = number(words.get(2).copied());
    match what {
        "at" | "insts" | "nets" | "fan-out" => answer_path(out, ask, what, path),
        "first" | "pins" | "pin" | "drivers" | "loads" => match first {
            Some(net) => answer_net(out, ask, what, path, net),
            None => unknown(out),
        },
        "net" | "inner" => match (first, number(words.get(3).copied())) {
            (Some(port), Some(bit)) => answer_bit(out, ask, what, path, port, bit),
            _ => unknown(out),
        },
        "same" => {
            let other = path_of(alloc, words.get(3).copied())?;
            match (first, other, number(words.get(4).copied())) {
                (Some(net), Some(steps), Some(second)) => {
                    let one = NetRef { path, net };
                    let two = NetRef {
                        path: steps.as_slice(),
                        net: second,
                    };
                    answer_same(out, ask, one, two)
                }
                _ => unknown(out),
            }
        }
        _ => unknown(out),
    }
}

/// The place of what has an identifier in the occurrence at a path.
fn place_of(
    ask: &Ask<Design>,
    names: &Names<&Design>,
    path: &[u32],
    kind: &str,
    name: &str,
) -> Option<u32> {
    let cell = ask.at(path)?;
    match kind {
        "inst" => names.inst(cell, name.as_bytes()),
        "net" => names.net(cell, name.as_bytes()),
        "port" => names.port(cell, name.as_bytes()),
        _ => None,
    }
}

/// Answers where the text of a path leads, or the place of a name there.
fn answer_named<W: Write>(
    out: &mut W,
    ask: &Ask<Design>,
    names: &Names<&Design>,
    words: &[&str],
) -> Result<(), Stop> {
    let text = words.first().copied().unwrap_or("");
    let Some(path) = names.path(text.as_bytes())? else {
        writeln!(out, "none")?;
        return Ok(());
    };
    if words.len() < 3 {
        write!(out, "path ")?;
        write_path(out, path.as_slice())?;
        writeln!(out)?;
        return Ok(());
    }
    match place_of(ask, names, path.as_slice(), words[1], words[2]) {
        Some(place) => writeln!(out, "place {place}")?,
        None => writeln!(out, "none")?,
    }
    Ok(())
}

/// Says that the line is no question.
fn unknown<W: Write>(out: &mut W) -> Result<(), Stop> {
    writeln!(out, "what")?;
    Ok(())
}

/// Answers one question.
fn answer_once<W: Write>(
    out: &mut W,
    ask: &Ask<Design>,
    names: &Names<&Design>,
    alloc: Global,
    words: &[&str],
) -> Result<(), Stop> {
    if !words.is_empty() && words[0] == "named" {
        return answer_named(out, ask, names, &words[1..]);
    }
    answer_words(out, ask, alloc, words)
}

/// Answers one line.
fn answer<W: Write>(
    out: &mut W,
    ask: &Ask<Design>,
    names: &Names<&Design>,
    alloc: Global,
    line: &str,
) -> Result<(), Stop> {
    let words: Vec<&str> = line.split_whitespace().collect(alloc)?;
    let words = words.as_slice();
    if words.len() < 2 || words[0] != "again" {
        return answer_once(out, ask, names, alloc, words);
    }
    let Some(count) = number(Some(words[1])) else {
        return unknown(out);
    };
    let question = &words[2..];
    for _ in 1..count {
        let mut nothing = io::sink();
        answer_once(&mut nothing, ask, names, alloc, question)?;
    }
    answer_once(out, ask, names, alloc, question)
}

fn main(rt: HostRuntime) -> Result<(), Stop> {
    let Some(name) = env::args(&rt)?.nth(1) else {
        return Err(Stop::NoFile);
    };
    let ask = Ask::of(rt.alloc(), open(&rt, name.as_str())?)?;
    let names = Names::of(rt.alloc(), ask.design())?;
    let mut out = BufWriter::new(rt.alloc(), io::writer(&rt))?;
    for line in BufReader::new(rt.alloc(), rt.reader())?.lines(rt.alloc()) {
        answer(&mut out, &ask, &names, rt.alloc(), line?.as_str())?;
    }
    out.flush()?;
    Ok(())
}
