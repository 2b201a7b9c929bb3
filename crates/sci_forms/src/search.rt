// The first number that fails a test.
ghost use Rattle.std.specs.Prelude.{◌≡◌, ◌<◌, ℕ, Bool, IfSome};
ghost use Rattle.sci_forms.specs.Forms.{first_not};

/// The first of the numbers from 0 to `n` - 1 that doesn't pass the test.
#[tactic(auto, using(crate::proofs::FirstNot::found, crate::proofs::FirstNot::passed))]
pub fn first_failing<F: Fn(usize) -> bool>(n: usize, passes: F) -> Option<usize>
    requires { (k : ℕ) → k < n → F.pre passes k }
    ensures first { (test : ℕ → Bool) → ((k : ℕ) (r : Bool) → k < n → F.post passes k r → r ≡ test k) → result ≡ first_not test n }
    ensures within { IfSome result (λ k. k < n) }
{
    for k in 0..n {
        if !passes(k) {
            return Some(k);
        }
    }
    None
}
