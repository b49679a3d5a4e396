// Loops over lent lists that several crates need. Each answers every input.
#![tactic(auto)]

ghost use Rattle.std.specs.Prelude.{◌≡◌, min, length, take};
ghost use Rattle.std.specs.Float.{binary64};
ghost use Rattle.std.specs.Float.Ieee.{add};
ghost use Rattle.lists.specs.Fold.{sum_to};
ghost use Rattle.lists.specs.Squares.{square, square_at, away_at};
ghost use Rattle.lists.specs.Laid.{laid};

// The first n of a list, or all that there are.
pub fn front<T>(list: &[T], n: usize) -> &[T]
    ensures { result.now ≡ take n list.now }
{
    &list[..n.min(list.len())]
}

// The list over the front of a store, as much of it as the store can take; the other places stay. Place by place: for `copy_from_slice`
// the archive that C links would ask for `memmove`.
pub fn copy_over(list: &[f32], store: &mut [f32])
    ensures { store.new ≡ laid list.now store.old }
{
    let n = list.len().min(store.len());
    for k in 0..n {
        store[k] = list[k];
    }
}

// A sum and the square of one value more, which is taken in f64.
fn plus_square(sum: f64, x: f32) -> f64
    ensures { result ≡ add binary64 sum (square x) }
{
    let wide = floats::widen(x);
    sum + wide * wide
}

// The f64 sum of squares of the first n values, or of all where there are fewer. A loop, here and below: after `fold` the proof isn't found.
// The slice, and not `front`: its length is the clause's bound as it stands.
#[tactic(auto, using(crate::proofs::Fold::sum_to_more), unfolding(crate::specs::Fold::sum_to))]
pub fn squares(list: &[f32], n: usize) -> f64
    ensures { result ≡ sum_to binary64 (square_at list.now) (min n (length list.now)) }
{
    let mut sum = 0.0f64;
    for x in &list[..n.min(list.len())] {
        sum = plus_square(sum, *x);
    }
    sum
}

// The f64 sum of squares of the f32 differences of two lists, place by place, as far as the shorter goes.
// A loop for the same reason.
#[tactic(auto, using(crate::proofs::Fold::sum_to_more), unfolding(crate::specs::Fold::sum_to))]
pub fn squares_away(list: &[f32], from: &[f32]) -> f64
    ensures { result ≡ sum_to binary64 (away_at list.now from.now) (min (length list.now) (length from.now)) }
{
    let mut sum = 0.0f64;
    for (x, y) in list.iter().zip(from) {
        sum = plus_square(sum, *x - *y);
    }
    sum
}
