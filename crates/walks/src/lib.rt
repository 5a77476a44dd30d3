// Walks over the front of a list: definitions and the law of the loops that go over them. Beside them the smaller and the
// larger of two whole numbers, which crates ask for that stand on no other in common.
#![tactic(auto)]

ghost use Rattle.std.specs.Prelude.{◌≡◌, min, max};

pub fn smaller(a: usize, b: usize) -> usize
    ensures { result ≡ min a b }
{
    if a < b { a } else { b }
}

pub fn larger(a: usize, b: usize) -> usize
    ensures { result ≡ max a b }
{
    if a < b { b } else { a }
}
