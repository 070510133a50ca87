// Trees as prefix tokens: 0 the next primitive, 1 And, 2 Or, 3 Not.
#![tactic(auto, unfolding(crate::specs::Shape::wanted, crate::specs::Shape::met_by))]

ghost use Rattle.std.specs.Prelude.{◌≡◌, ◌+◌, ◌^◌, ◌<◌, ◌≤◌};
ghost use Rattle.tree.specs.Shape.{shape_of, wanted, met_by};

// The trees wanted after token t, which begins one of them, when `others` are wanted behind it.
fn wanted_after(t: u8, others: usize) -> usize
    requires { others < 2 ^ 63 }
    ensures { (result ≡ wanted t others) × (result ≤ others + 2) }
{
    match t {
        0 => others,
        3 => others + 1,
        _ => others + 2,
    }
}

// The primitives met once token t is read.
fn met_after(t: u8, met: usize) -> usize
    requires { met < 2 ^ 63 }
    ensures { (result ≡ met_by t met) × (result ≤ met + 1) }
{
    if t == 0 { met + 1 } else { met }
}

// The primitives of the one whole tree that the tokens are, if they are one: a loop, since a tree may be as deep as it has tokens.
pub fn whole_tree(tokens: &[u8]) -> Option<usize>
    ensures { result ≡ shape_of tokens.now }
{
    let mut want: usize = 1;
    let mut leaves: usize = 0;
    for &t in tokens {
        if want == 0 {
            return None; // Tokens are left over.
        }
        if t > 3 {
            return None; // No token of document 01.
        }
        want = wanted_after(t, want - 1);
        leaves = met_after(t, leaves);
    }
    if want == 0 { Some(leaves) } else { None }
}
