// What a line of `stand` asks for.
ghost use Rattle.std.specs.Prelude.{◌≡◌};
ghost use Rattle.lines.specs.Command.{number_told, verb_of, config_from, read_from, deposit_from, asked_of};

use crate::read::{LIMIT, Line};

#[derive(Clone, Copy, Debug, PartialEq, Eq)]
pub enum Command {
    // m, n, k, t and F.
    Config(usize, usize, usize, usize, usize),
    Read(usize),
    // A client, and a page of so many bytes.
    Deposit(usize, usize),
}

// What a line's first word says.
#[derive(Clone, Copy, Debug, PartialEq, Eq)]
pub enum Verb {
    Config,
    Read,
    Deposit,
}

// The names packed: their bytes after a 1.
const CONFIG: u64 = 0x01_63_6f_6e_66_69_67;

const READ: u64 = 0x01_72_65_61_64;

const DEPOSIT: u64 = 0x01_64_65_70_6f_73_69_74;

#[tactic(auto, unfolding(crate::specs::Command::verb_of, crate::specs::Words::packed, crate::specs::Words::pack_from))]
fn verb_named(name: u64) -> Option<Verb>
    ensures { result ≡ verb_of name }
{
    match name {
        CONFIG => Some(Verb::Config),
        READ => Some(Verb::Read),
        DEPOSIT => Some(Verb::Deposit),
        _ => None,
    }
}

// A line that no bytes give may have any number: from 2^32 on it is none.
pub fn number(n: Option<u64>) -> Option<usize>
    ensures { result ≡ number_told n }
{
    let n = n?;
    if LIMIT <= n {
        return None;
    }
    Some(n as usize)
}

// All words after the first are numbers.
fn config(l: Line) -> Option<Command>
    ensures { result ≡ config_from l }
{
    if l.words != 6 {
        return None;
    }
    let [m, n, k, t, f, _] = l.numbers;
    Some(Command::Config(number(m)?, number(n)?, number(k)?, number(t)?, number(f)?))
}

fn read(l: Line) -> Option<Command>
    ensures { result ≡ read_from l }
{
    if l.words != 2 {
        return None;
    }
    Some(Command::Read(number(l.numbers[0])?))
}

fn deposit(l: Line) -> Option<Command>
    ensures { result ≡ deposit_from l }
{
    if l.words != 3 {
        return None;
    }
    Some(Command::Deposit(number(l.numbers[0])?, l.page?))
}

// None for a line of another form.
#[tactic(auto, unfolding(crate::specs::Command::asked_of))]
pub fn asked(l: Line) -> Option<Command>
    ensures { result ≡ asked_of l }
{
    match verb_named(l.name)? {
        Verb::Config => config(l),
        Verb::Read => read(l),
        Verb::Deposit => deposit(l),
    }
}
