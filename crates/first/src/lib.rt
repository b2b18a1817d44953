// Rules over numbered places: the fields of a record, the entries of a file, the steps of a routine.
// A rule is tried over all its places before the next, and a refusal names the rule and its first bad place.
#![tactic(auto)]

ghost use Rattle.std.specs.Prelude.{◌≡◌, ℕ, ◌<◌, Decides, MatchOption};
ghost use Rattle.first.specs.First.{First, Granted, Only, Ruled, Somewhere};
ghost use Rattle.first.specs.Places.{Fills};

// A test of numbered places. What makes a place bad is a proposition, which the call decides.
// A closure would be no plainer: nothing is known of one but what its calls give, and a rule says in `bad` what it means.
pub trait Test {
    ghost bad: { Self → ℕ → Type 0 };

    ghost places: { Self → ℕ };

    fn count(&self) -> u32
        ensures { result ≡ places self.now };

    fn fails(&self, place: u32) -> bool
        ensures { place < places self.now → Decides result (bad self.now place) };
}

// The first bad place.
pub fn first_bad<T: Test>(test: &T) -> Option<u32>
    ensures { First (T.Test.bad test.now) (T.Test.places test.now) result }
{
    (0..test.count()).find(|place| test.fails(*place))
}

// Whether there is a bad place.
pub fn any_bad<T: Test>(test: &T) -> bool
    ensures { Decides result (Somewhere (T.Test.bad test.now) (T.Test.places test.now)) }
{
    first_bad(test).is_some()
}

// Refuses by the rule at the first bad place. Rules in order are `try_rule(A, &a)?; try_rule(B, &b)?;`.
pub fn try_rule<R: Copy, T: Test>(rule: R, test: &T) -> Result<(), (R, u32)>
    ensures { Only (Ruled rule (T.Test.bad test.now) (T.Test.places test.now) Granted) result }
{
    match first_bad(test) {
        Some(place) => Err((rule, place)),
        None => Ok(()),
    }
}

// Two rules in order: the second is tried only where the first holds nowhere. No other answer is allowed.
pub fn try_two<R: Copy, A: Test, B: Test>(first: R, a: &A, second: R, b: &B) -> Result<(), (R, u32)>
    ensures { Only (Ruled first (A.Test.bad a.now) (A.Test.places a.now) (Ruled second (B.Test.bad b.now) (B.Test.places b.now) Granted)) result }
{
    try_rule(first, a)?;
    try_rule(second, b)
}

// How many places of `size` bytes a row of `bytes` bytes has behind a head of `head`: 1 to `most`, with nothing left over.
pub fn place_count(bytes: usize, head: usize, size: usize, most: usize) -> Option<usize>
    ensures { MatchOption result ((n : ℕ) → Fills bytes head size most n → ⊥) (Fills bytes head size most) }
{
    let places = bytes.checked_sub(head)?;
    let count = places.checked_div(size)?;
    if count >= 1 && count <= most && places % size == 0 {
        Some(count)
    } else {
        None
    }
}
