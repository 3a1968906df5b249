// A script, line by line.
use crate::command::{Command, Event, asked};
use crate::report;
use crate::space::{Shown, Space};
use lines::read::Line;
use parties::Measures;
use parties::records::nodes::{add_node, count, has_node};
use runs::answer::EventEnd;
use runs::event;
use std::io;
use std::io::Write;
use title::fresh::fresh;
use title::table_part;

#[derive(Clone, Copy, Debug, PartialEq, Eq)]
pub enum Stage {
    // Before a `config`.
    Unset,
    // After it.
    Set,
    // After the first event, also one that is refused.
    Begun,
}

#[derive(Clone, Copy)]
pub struct Run {
    pub stage: Stage,
    pub measures: Measures,
    // The dishonest nodes.
    pub liars: u16,
    // How many bytes of parcels are under way.
    pub used: usize,
}

pub fn start() -> Run {
    Run {
        stage: Stage::Unset,
        measures: Measures {
            m: 0,
            n: 0,
            k: 0,
            t: 0,
            f: 0,
        },
        liars: 0,
        used: 0,
    }
}

// None for measures that pass, 2 where only the program has no memory for them.
fn refusal(s: Measures) -> Option<usize> {
    if !s.pass() {
        return Some(1);
    }
    if 3 < s.m || 64 < s.f {
        return Some(2);
    }
    None
}

// A run begins anew with each `config`.
fn config<W: Write>(writer: &mut W, s: Measures, memory: &mut [u8]) -> io::Result<Run> {
    if let Some(r) = refusal(s) {
        writeln!(writer, "config: refused {r}")?;
        return Ok(start());
    }
    // Measures that pass, and a memory that is long enough for them.
    let _ = fresh(s, memory);
    report::header(writer, s)?;
    Ok(Run {
        stage: Stage::Set,
        measures: s,
        liars: 0,
        used: 0,
    })
}

fn liar<W: Write>(writer: &mut W, x: Run, i: usize) -> io::Result<Run> {
    let s = x.measures;
    if x.stage == Stage::Begun {
        writeln!(writer, "error: liars come before the first event")?;
        return Ok(x);
    }
    if i < 1 || s.n < i {
        writeln!(writer, "liar {i}: refused 3")?;
        return Ok(x);
    }
    let liars = add_node(x.liars, i);
    if s.t < count(liars) {
        writeln!(writer, "error: no more than t liars")?;
        return Ok(x);
    }
    writeln!(writer, "liar {i}: set")?;
    Ok(Run {
        stage: Stage::Set,
        measures: s,
        liars,
        used: 0,
    })
}

// A node's table; after a `config` the memory has it.
fn table<W: Write>(writer: &mut W, s: Measures, i: usize, memory: &[u8]) -> io::Result<()> {
    match table_part(s, i, memory.len()) {
        Ok(part) => report::holds(writer, i, &memory[part.start..part.end], s.f),
        Err(_) => Ok(()),
    }
}

fn show<W: Write>(writer: &mut W, s: Measures, i: usize, memory: &[u8]) -> io::Result<()> {
    if i < 1 || s.n < i {
        return writeln!(writer, "show {i}: refused 3");
    }
    table(writer, s, i, memory)
}

// Only a liar lies, and the page has to have all of the bytes.
fn fits<W: Write>(writer: &mut W, liars: u16, e: Event, most: usize) -> io::Result<bool> {
    let Event::Lie(i, _, n) = e else {
        return Ok(true);
    };
    if !has_node(liars, i) {
        writeln!(writer, "error: node {i} is no liar")?;
        return Ok(false);
    }
    if most <= n {
        writeln!(writer, "error: too many bytes")?;
        return Ok(false);
    }
    Ok(true)
}

fn happens(
    s: Measures,
    liars: u16,
    used: usize,
    e: Event,
    space: &mut Space,
    left: &mut Shown,
) -> EventEnd {
    let memory = &mut space.memory;
    let post = &mut space.post;
    let page = &space.page;
    let room = &mut left.room;
    let out = &mut left.out;
    match e {
        Event::Deposit(c, len) => {
            let n = len.min(page.len());
            event::deposit(s, c, memory, &page[..n], post, used)
        }
        Event::Read(c) => event::reading(s, c, memory, room, post, used),
        Event::Carry(c) => event::carry(s, c, memory, room, post, used),
        Event::Hand(c) => event::hand(s, c, memory, room, post, used),
        Event::Bring(c, i) => event::bring(s, liars, c, i, memory, room, post, used),
        Event::Deliver(i, c) => event::deliver(s, c, i, memory, room, out, post, used),
        Event::Lie(i, c, len) => {
            let n = len.min(page.len());
            event::lie(s, liars, c, i, &page[..n], memory, room, out, post, used)
        }
    }
}

// What the room and the page out hold is shown at once, so each event has its own.
fn act<W: Write>(writer: &mut W, x: Run, e: Event, space: &mut Space) -> io::Result<Run> {
    let s = x.measures;
    if !fits(writer, x.liars, e, space.page.len())? {
        return Ok(x);
    }
    let mut left = Shown::new();
    let t = happens(s, x.liars, x.used, e, space, &mut left);
    report::event(writer, s, e, t.what, &left)?;
    Ok(Run {
        stage: Stage::Begun,
        used: t.used,
        ..x
    })
}

// Whether a run has to have begun.
fn of_run(what: Command) -> bool {
    matches!(
        what,
        Command::Liar(_) | Command::Show(_) | Command::Event(_)
    )
}

// A line of a script.
pub fn line<W: Write>(writer: &mut W, x: Run, l: Line, space: &mut Space) -> io::Result<Run> {
    let Some(what) = asked(l) else {
        writeln!(writer, "error: not a line of a script")?;
        return Ok(x);
    };
    if x.stage == Stage::Unset && of_run(what) {
        writeln!(writer, "error: config comes first")?;
        return Ok(x);
    }
    match what {
        Command::Nothing => Ok(x),
        Command::Config(new) => config(writer, new, &mut space.memory),
        Command::Liar(i) => liar(writer, x, i),
        Command::Show(i) => {
            show(writer, x.measures, i, &space.memory)?;
            Ok(x)
        }
        Command::Event(e) => act(writer, x, e, space),
    }
}
