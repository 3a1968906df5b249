// A session of `stand`, byte by byte.
ghost use Rattle.std.specs.Prelude.{◌≡◌, true, List, ℕ, take};
ghost use Rattle.parties.specs.protocol.Measures.{passes};
ghost use Rattle.lines.specs.Read.{ended_of};
ghost use Rattle.lines.specs.Command.{asked_of, given};
ghost use Rattle.lines.specs.Text.{written, put_line};
ghost use Rattle.lines.specs.Sentences.{refused_line};
ghost use Rattle.session.specs.Settle.{lend, lent_of, Bytes, SameSlices, desk};
ghost use Rattle.session.specs.Session.{Runs, Live, new_line, started, held_in, small as fits, slices_long as suffice, opens, Replies, First, Reads, Deposits, Operates, Later, Ends, Feeds, Closes};

use crate::settle::settle;
use crate::space::Slices;
use lines::command::{Command, asked};
use lines::read::{Reading, begin, ended, next};
use lines::text::{header, refused};
use parties::{Measures, sizes};
use runs::event::{deposit, needed, reading};
use title::fresh::fresh;

// Bytes and no enum: a caller's session may hold any byte, and `feed`, `close` and `feed_input` say what each does.
const OPENING: u8 = 0;

const RUNNING: u8 = 1;

pub(crate) const OVER: u8 = 2;

#[derive(Clone, Copy)]
pub struct Session {
    // 0 before the first line, 1 after a `config`, 2 after a first line that was refused.
    pub stage: u8,
    pub measures: Measures,
    // How many bytes of parcels are under way.
    pub used: usize,
    // The line that is being read has a byte.
    pub open: bool,
    pub reading: Reading,
}

#[derive(Clone, Copy)]
pub struct Answer {
    pub session: Session,
    // The length of the line that answers, or 0. No option: no bytes are written either way, so that who writes would test for 0 besides.
    pub len: usize,
}

// How long the slices are that are lent with the memory.
#[derive(Clone, Copy, Debug, PartialEq, Eq)]
pub struct Lengths {
    pub room: usize,
    pub out: usize,
    pub post: usize,
    pub page: usize,
    pub text: usize,
}

pub fn start() -> Session
    ensures { result ≡ started }
{
    Session {
        stage: OPENING,
        measures: Measures {
            m: 0,
            n: 0,
            k: 0,
            t: 0,
            f: 0,
        },
        used: 0,
        open: false,
        reading: begin(),
    }
}

// A new line is read.
fn at_stage(stage: u8, measures: Measures, used: usize, len: usize) -> Answer
    ensures { (result.len ≡ len) × (result.session ≡ new_line stage measures used) }
{
    Answer {
        session: Session {
            stage,
            measures,
            used,
            open: false,
            reading: begin(),
        },
        len,
    }
}

// A refusal is printed, and a new line is read.
fn refuse(x: usize, stage: u8, s: Measures, used: usize, text: &mut [u8]) -> Answer
    ensures line { written text.new result.len ≡ put_line text.old (refused_line x) }
    ensures next { result.session ≡ new_line stage s used }
    ensures bytes { Bytes text.new }
{
    let n = refused(text, x);
    at_stage(stage, s, used, n)
}

// Whether the program has memory for such measures.
fn small(s: Measures) -> bool
    ensures { result ≡ fits s }
{
    s.m <= 3 && s.f <= 64
}

// Whether the slices suffice for such measures.
fn slices_long(s: Measures, l: Lengths) -> bool
    requires { passes s ≡ true }
    ensures { result ≡ suffice s l }
{
    let room = sizes::room(s);
    let rows = sizes::directory(s);
    let frame = s.k * s.f;
    if l.room < room {
        return false;
    }
    if l.room < rows {
        return false;
    }
    if l.out < frame - 4 {
        return false;
    }
    if l.page <= frame - 4 {
        return false;
    }
    if l.text < 2 * frame + 32 {
        return false;
    }
    let parcels = needed(s);
    2 * parcels <= l.post
}

// Measures out of bounds come before those that are too big.
fn config(s: Measures, l: Lengths, memory: &mut [u8], text: &mut [u8]) -> Answer
    ensures goes { ((post page : List ℕ) → Live result.session memory.new post page)
        × Replies (opens s l memory.old) s text.old memory.new text.new result.session result.len }
    ensures bytes { Bytes memory.new × Bytes text.new }
{
    if !s.pass() {
        return refuse(1, OVER, s, 0, text);
    }
    if !small(s) {
        return refuse(2, OVER, s, 0, text);
    }
    if !slices_long(s, l) {
        return refuse(2, OVER, s, 0, text);
    }
    match fresh(s, memory) {
        Err(x) => refuse(x.number(), OVER, s, 0, text),
        Ok(_) => {
            let n = header(text, s.m, s.n, s.k, s.t, s.f);
            at_stage(RUNNING, s, 0, n)
        }
    }
}

// The first line.
fn first(x: Session, l: Lengths, memory: &mut [u8], text: &mut [u8]) -> Answer
    ensures goes { ((post page : List ℕ) → Live result.session memory.new post page)
        × ((page : List ℕ) → First (given (asked_of (ended_of x.reading)) page) x.measures l memory.old text.old memory.new text.new result.session result.len) }
    ensures bytes { Bytes memory.new × Bytes text.new }
{
    match asked(ended(x.reading)) {
        Some(Command::Config(m, n, k, t, f)) => {
            config(Measures { m, n, k, t, f }, l, memory, text)
        }
        Some(Command::Read(_)) => refuse(4, OVER, x.measures, 0, text),
        Some(Command::Deposit(_, _)) => refuse(4, OVER, x.measures, 0, text),
        None => refuse(4, OVER, x.measures, 0, text),
    }
}

// This one and `put` take the slices one by one: of a slice in a struct the prover does not know that bytes stand in it.
fn read(
    s: Measures,
    used: usize,
    c: usize,
    memory: &mut [u8],
    room: &mut [u8],
    out: &mut [u8],
    post: &mut [u8],
    text: &mut [u8],
) -> Answer
    ensures goes { ((page : List ℕ) (x : Session) → x.measures ≡ s → x.used ≡ used → Runs x memory.old post.old → Live result.session memory.new post.new page)
        × Operates s c (Reads s c used (lend memory.old post.old room.old out.old))
        (desk (lend memory.old post.old room.old out.old) used text.old 0)
        (desk (lend memory.new post.new room.new out.new) result.session.used text.new result.len)
        × (result.session ≡ new_line 1 s result.session.used) }
    ensures bytes { Bytes memory.new × Bytes room.new × Bytes out.new × Bytes post.new × Bytes text.new }
{
    let result = reading(s, c, memory, room, post, used);
    let e = settle(s, c, result, memory, room, out, post, text);
    at_stage(RUNNING, s, e.used, e.len)
}

fn put(
    s: Measures,
    used: usize,
    c: usize,
    bytes: usize,
    memory: &mut [u8],
    room: &mut [u8],
    out: &mut [u8],
    post: &mut [u8],
    page: &[u8],
    text: &mut [u8],
) -> Answer
    ensures goes { ((sheet : List ℕ) (x : Session) → x.measures ≡ s → x.used ≡ used → Runs x memory.old post.old → Live result.session memory.new post.new sheet)
        × Operates s c (Deposits s c used (take bytes page.now) (lend memory.old post.old room.old out.old))
        (desk (lend memory.old post.old room.old out.old) used text.old 0)
        (desk (lend memory.new post.new room.new out.new) result.session.used text.new result.len)
        × (result.session ≡ new_line 1 s result.session.used) }
    ensures bytes { Bytes memory.new × Bytes room.new × Bytes out.new × Bytes post.new × Bytes text.new }
{
    let n = bytes.min(page.len());
    let result = deposit(s, c, memory, &page[..n], post, used);
    let e = settle(s, c, result, memory, room, out, post, text);
    at_stage(RUNNING, s, e.used, e.len)
}

// A later line.
fn later(x: Session, lent: &mut Slices<'_>, page: &[u8]) -> Answer
    ensures same { SameSlices lent.old lent.new }
    ensures goes { (x.stage ≡ 1 → Live x lent.old.memory.now lent.old.post.now page.now
        → Live result.session lent.new.memory.now lent.new.post.now page.now)
        × Later (given (asked_of (ended_of x.reading)) page.now) x.measures
        (desk (lent_of lent.old) x.used lent.old.text.now 0)
        (desk (lent_of lent.new) result.session.used lent.new.text.now result.len)
        × (result.session ≡ new_line 1 x.measures result.session.used) }
{
    let s = x.measures;
    match asked(ended(x.reading)) {
        Some(Command::Read(c)) => read(
            s,
            x.used,
            c,
            lent.memory,
            lent.room,
            lent.out,
            lent.post,
            lent.text,
        ),
        Some(Command::Deposit(c, bytes)) => {
            put(
                s,
                x.used,
                c,
                bytes,
                lent.memory,
                lent.room,
                lent.out,
                lent.post,
                page,
                lent.text,
            )
        }
        Some(Command::Config(_, _, _, _, _)) => refuse(4, RUNNING, s, x.used, lent.text),
        None => refuse(4, RUNNING, s, x.used, lent.text),
    }
}

// A line ended.
fn line(x: Session, lent: &mut Slices<'_>, page: &[u8]) -> Answer
    ensures same { SameSlices lent.old lent.new }
    ensures goes { (Live x lent.old.memory.now lent.old.post.now page.now → Live result.session lent.new.memory.now lent.new.post.now page.now)
        × Ends (held_in x lent.old page.now) (given (asked_of (ended_of x.reading)) page.now)
        (held_in result.session lent.new page.now) result.len }
{
    match x.stage {
        OPENING => {
            let l = Lengths {
                room: lent.room.len(),
                out: lent.out.len(),
                post: lent.post.len(),
                page: page.len(),
                text: lent.text.len(),
            };
            first(x, l, lent.memory, lent.text)
        }
        RUNNING => later(x, lent, page),
        _ => Answer { session: x, len: 0 },
    }
}

// A byte of the input.
pub fn feed(x: Session, b: u8, lent: &mut Slices<'_>, page: &mut [u8]) -> Answer
    ensures same { SameSlices lent.old lent.new }
    ensures feeds { Feeds (held_in x lent.old page.old) b (held_in result.session lent.new page.new) result.len }
{
    if b == 10 {
        return line(x, lent, page);
    }
    let reading = next(x.reading, b, page);
    Answer {
        session: Session {
            open: true,
            reading,
            ..x
        },
        len: 0,
    }
}

// The end of the input: a last line may lack its line feed.
pub fn close(x: Session, lent: &mut Slices<'_>, page: &[u8]) -> Answer
    ensures same { SameSlices lent.old lent.new }
    ensures closes { Closes (held_in x lent.old page.now) (held_in result.session lent.new page.now) result.len }
{
    if x.open {
        return line(x, lent, page);
    }
    Answer { session: x, len: 0 }
}
