// Answers as numbers, for C and Rust.
#![tactic(auto)]

ghost use Rattle.std.specs.Prelude.{◌≡◌};
ghost use Rattle.parties.specs.Answer.{served};
ghost use Rattle.parties.specs.client.Answer.{answered};
ghost use Rattle.numbers.specs.Code.{code, of_version, told};

use parties::{ClientAnswer, Refusal, Version};

// A length is below 2^32, so that a refusal is told apart by that bit.
pub fn service_code(a: Result<usize, Refusal>) -> u64
    ensures { result ≡ code (served a) }
{
    match a {
        Ok(len) => len as u64,
        Err(r) => (1 << 32) + r.number() as u64,
    }
}

fn of_version(kind: u64, v: Version, n: u64) -> [u64; 4]
    ensures { result ≡ of_version kind v n }
{
    let q = v.sequence;
    [kind, q.0 as u64, v.client as u64, n]
}

pub fn numbers_of(a: Result<ClientAnswer, Refusal>) -> [u64; 4]
    ensures { result ≡ told (answered a) }
{
    match a {
        Err(r) => [0, 0, 0, r.number() as u64],
        Ok(ClientAnswer::Waits) => [1, 0, 0, 0],
        Ok(ClientAnswer::Scan) => [2, 0, 0, 0],
        Ok(ClientAnswer::Update(len)) => [3, 0, 0, len as u64],
        Ok(ClientAnswer::Stores(v, len)) => of_version(4, v, len as u64),
        Ok(ClientAnswer::Requests(v, nodes)) => of_version(5, v, nodes as u64),
        Ok(ClientAnswer::Deposited(v, len)) => of_version(6, v, len as u64),
        Ok(ClientAnswer::Empty) => [7, 0, 0, 0],
        Ok(ClientAnswer::Page(v, len)) => of_version(8, v, len as u64),
        Ok(ClientAnswer::Spent) => [9, 0, 0, 0],
        Ok(ClientAnswer::Failed) => [10, 0, 0, 0],
    }
}
