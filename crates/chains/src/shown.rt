// What a fact set shows.
ghost use Rattle.std.specs.Prelude.{◌≡◌};
ghost use Rattle.facts.specs.Store.{shown, within_end, end_shown, answered};

use changes::{Answers, Questions};
use facts::FactSet;
use sums::{BIAS, LIMIT};

// x <= y + k is shown. Contradictory facts show every fact.
pub fn shows(facts: FactSet, x: usize, y: usize, k: u64) -> bool
    ensures { result ≡ shown facts x y k }
{
    if facts.contradicts() {
        return true;
    }
    facts.sum(x, y) <= k
}

// a + size times b + k <= j, each with the bias; numbers out of range show nothing.
fn within_end(size: u64, a: u64, b: u64, k: u64, j: u64) -> bool
    ensures { result ≡ within_end size a b k j }
{
    if (size <= 8) & (a < LIMIT) & (b < LIMIT) & (k < LIMIT) & (j < LIMIT) {
        return a + size * b + k <= j + BIAS + size * BIAS;
    }
    false
}

// The end (q, n, k) is at most the end (r, m, j): the chains from q to r and, multiplied by the size, from n to m with k sum to at most j.
pub fn shows_end(
    facts: FactSet,
    size: u64,
    q: usize,
    n: usize,
    k: u64,
    r: usize,
    m: usize,
    j: u64,
) -> bool
    ensures { result ≡ end_shown facts size q n k r m j }
{
    if facts.contradicts() {
        return true;
    }
    within_end(size, facts.sum(q, r), facts.sum(n, m), k, j)
}

// Two questions, answered in one call, since a fact set is large to pass; and where nothing is asked, without looking at it.
pub fn answer(facts: FactSet, questions: Questions) -> Answers
    ensures { result ≡ answered facts questions }
{
    if !questions.asked {
        return Answers {
            there: false,
            back: false,
        };
    }
    if facts.contradicts() {
        return Answers {
            there: true,
            back: true,
        };
    }
    let x = questions.x;
    let y = questions.y;
    let there = facts.sum(x, y) <= questions.there;
    if questions.chained & !there {
        return Answers {
            there: false,
            back: false,
        };
    }
    Answers {
        there,
        back: facts.sum(y, x) <= questions.back,
    }
}
