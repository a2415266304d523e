// Lists that are permutations, and a plain run permuted into a second one.
ghost use Rattle.std.specs.Prelude.{◌≡◌, ◌==◌, ◌↔◌, IsTrue, OnOk, count_by};
ghost use Rattle.sheet.specs.Permutations.{is_permutation, EachOnce, run_answer, permuted_run, Gathers};

use crate::refusal::{CallName, Refusal};

// At how many places of a list a number stands.
fn times(order: &[usize], number: usize) -> usize
    ensures { result ≡ count_by (λ p. p == number) order.now }
{
    order.iter().filter(|place| **place == number).count()
}

// Whether a list is the numbers from 0 to n - 1, each once. The time is quadratic, since nothing is allocated.
#[tactic(auto, unfolding(crate::specs::Permutations::is_permutation))]
pub(crate) fn is_permutation(n: usize, order: &[usize]) -> bool
    ensures answer { result ≡ is_permutation n order.now }
    ensures meaning { IsTrue result ↔ EachOnce n order.now }
{
    order.len() == n && (0..n).all(|number| times(order, number) == 1)
}

// Permutes a run of any copyable elements, such as records or instrument numbers, into a second one: element i of `to` becomes
// element order[i] of `from`. Refused, with `to` left as it was, where the three are not equally long or the list is no permutation.
pub fn permute_run<T: Copy>(from: &[T], order: &[usize], to: &mut [T]) -> Result<(), Refusal>
    ensures answer { result ≡ run_answer from.now order.now to.old }
    ensures run { to.new ≡ permuted_run from.now order.now to.old }
    ensures gathers { OnOk result (Gathers from.now order.now to.new) }
{
    if to.len() != from.len() || !is_permutation(from.len(), order) {
        return Err(Refusal::NoPermutation {
            call: CallName::PermuteRun,
            column: 0,
        });
    }
    for (row, place) in order.iter().enumerate() {
        to[row] = from[*place];
    }
    Ok(())
}
