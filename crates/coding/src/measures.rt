// The measures of splitting and joining.
ghost use Rattle.std.specs.Prelude.{◌≡◌, ◌+◌, ◌^◌, ◌<◌, ◌≤◌, true, false, OnOk, IfErr};
ghost use Rattle.coding.specs.Pieces.{proper, columns};
ghost use Rattle.coding.specs.declared.answer.Refusal.TheVariants.{Measures};

use crate::answer::Refusal;

// Each number is held to its own bound before two are multiplied.
fn proper_measures(n: usize, k: usize, f: usize) -> bool
    ensures { result ≡ proper n k f }
{
    1 <= n && n <= 16 && 1 <= k && k <= n && 1 <= f && f <= 4096 && 4 <= k * f
}

// What is asked of the measures, before all else.
pub fn measured(n: usize, k: usize, f: usize) -> Result<(), Refusal>
    ensures ok { OnOk result (proper n k f ≡ true) }
    ensures err { IfErr result (λ r. (r ≡ Measures) × (proper n k f ≡ false)) }
{
    if proper_measures(n, k, f) {
        Ok(())
    } else {
        Err(Refusal::Measures)
    }
}

pub fn piece_length(k: usize, page: usize) -> usize
    requires { (1 ≤ k) × (k ≤ 16) × (page < 2 ^ 32) }
    ensures { result ≡ columns k page }
{
    (4 + page + (k - 1)) / k
}
