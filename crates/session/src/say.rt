// The line that tells how an operation ended.
ghost use Rattle.std.specs.Prelude.{◌≡◌};
ghost use Rattle.lines.specs.Text.{written};
ghost use Rattle.session.specs.Say.{client_line, happened_line, put_told};

use lines::text::{deposited, read_nothing, read_page, refused};
use parties::ClientAnswer;
use runs::answer::Happened;

fn client(c: usize, a: ClientAnswer, out: &[u8], text: &mut [u8]) -> usize
    ensures { written text.new result ≡ put_told text.old (client_line c a out.now) }
{
    match a {
        ClientAnswer::Deposited(v, _) => {
            let q = v.sequence;
            deposited(text, c, q.0)
        }
        ClientAnswer::Empty => read_nothing(text, c),
        ClientAnswer::Page(v, n) => {
            let q = v.sequence;
            let to = n.min(out.len());
            read_page(text, c, q.0, v.client, &out[..to])
        }
        ClientAnswer::Spent => refused(text, 7),
        ClientAnswer::Failed => refused(text, 9),
        _ => 0,
    }
}

// The line's length, or 0 if client c's operation goes on or the line does not fit.
pub fn say(c: usize, what: Happened, out: &[u8], text: &mut [u8]) -> usize
    ensures { written text.new result ≡ put_told text.old (happened_line c what out.now) }
{
    match what {
        Happened::Refused(r) | Happened::ByClient(Err(r)) => refused(text, r.number()),
        Happened::ByClient(Ok(a)) => client(c, a, out, text),
        _ => 0,
    }
}
