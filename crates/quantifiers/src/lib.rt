// A test made of every number below n, with no branch on a single answer: which way one falls cannot be foretold.
#![tactic(auto)]

ghost use Rattle.std.specs.Prelude.{◌≡◌, ℕ, Bool, ◌<◌};
ghost use Rattle.model.specs.Base.{all, any};
ghost use Rattle.quantifiers.specs.Tested.{Tests};

// Whether all pass.
pub fn all<F: Fn(usize) -> bool>(n: usize, test: F) -> bool
    requires { (i : ℕ) → i < n → F.pre test i }
    ensures { (p : ℕ → Bool) → Tests (F.post test) n p → result ≡ all n p }
{
    let mut ok = true;
    for i in 0..n {
        ok = ok & test(i);
    }
    ok
}

// Whether one passes.
pub fn any<F: Fn(usize) -> bool>(n: usize, test: F) -> bool
    requires { (i : ℕ) → i < n → F.pre test i }
    ensures { (p : ℕ → Bool) → Tests (F.post test) n p → result ≡ any n p }
{
    let mut found = false;
    for i in 0..n {
        found = found | test(i);
    }
    found
}
