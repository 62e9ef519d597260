// Folds over 0..n are definitions with laws, in specs/. The search that runs over words as they are stands here.
#![tactic(auto)]

ghost use Rattle.std.specs.Prelude.{ℕ, Bool, true, false, ◌≡◌, ◌+◌, ◌≤◌, ◌<◌, length};
ghost use Rattle.ranges.specs.All.{any_below};
ghost use Rattle.ranges.specs.First.{first_below};
ghost use Rattle.ranges.specs.FirstLaws.{Sought};
ghost use Rattle.ranges.specs.Blocks.{first_block};
ghost use Rattle.ranges.specs.Words.{equal_from};

// Whether one of so many words from a place on equals a word. All are looked at: where their number stands in the code, the compiler compares
// four at once.
pub fn has_equal(words: &[u32], place: usize, many: usize, word: u32) -> bool
    requires { place + many ≤ length words.now }
    ensures { result ≡ any_below (equal_from words.now place word) many }
{
    let mut found = false;
    for at in 0..many {
        if words[place + at] == word {
            found = true;
        }
    }
    found
}

// Of n numbers, one before which none passes a test: from a number on, so many at a time are passed over where none of them is seen to pass, up
// to the first block where one is.
pub fn passed<F: Fn(usize) -> bool>(from: usize, n: usize, many: usize, seen: F) -> usize
    requires many_nonzero { (from ≤ n) × (0 < many) }
    requires blocks { (at : ℕ) → at + many ≤ n → F.pre seen at }
    ensures first { (p : ℕ → Bool) → ((at : ℕ) (b : Bool) → F.post seen at b → b ≡ p at) → result ≡ first_block p many n from }
    ensures within { result ≤ n }
    ensures stops { result + many ≤ n → F.post seen result true }
    ensures passed { (p : ℕ → Bool) → Sought p n from → ((at : ℕ) → at + many ≤ n → F.post seen at false → any_below (λ i. p (at + i)) many ≡ false)
        → Sought p n result }
{
    let mut at = from;
    while many <= n - at {
        if seen(at) {
            return at;
        }
        at += many;
    }
    at
}

// The first of the n words from start on that equals a word: its distance from start, and n where none does. What is passed over by 16 and
// then by 4 words is compared side by side; the last few are searched word by word.
pub fn first_equal(words: &[u32], start: usize, n: usize, word: u32) -> usize
    requires { start + n ≤ length words.now }
    ensures { result ≡ first_below (equal_from words.now start word) n }
{
    let wide = passed(0, n, 16, |at| has_equal(words, start + at, 16, word));
    let narrow = passed(wide, n, 4, |at| has_equal(words, start + at, 4, word));
    (narrow..n)
        .find(|at| words[start + *at] == word)
        .unwrap_or(n)
}
