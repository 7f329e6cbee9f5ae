// Cells of any type: the list, the scratch and packed bytes. What lies out of range is read as 0 and not written. A list and
// a scratch have a content before a call that is known afterwards.
ghost use Rattle.std.specs.Prelude.{◌≡◌, ℕ, ◌<◌, ◌≤◌, ◌↔◌, Some, IsTrue, length, take, drop, slice_get, slice_index_or, slice_set};
ghost use Rattle.draws.specs.Content.{content};

use crate::draw::content;
use crate::number::Low;

pub fn get<T: Copy + Default>(s: &[T], i: usize) -> T
    ensures inside { i < length s.now → slice_get s.now i ≡ Some result }
    ensures outside { length s.now ≤ i → T.is_default result }
{
    s.get(i).copied().unwrap_or_default()
}

pub fn put<T: Copy>(s: &mut [T], i: usize, v: T)
    ensures { s.new ≡ slice_set s.old i v }
{
    // with `get_mut` it stays open that the other cells are as they were
    if i < s.len() {
        s[i] = v;
    }
}

// So many cells from `from` on, or as many as there are.
pub fn part<T>(s: &[T], from: usize, count: usize) -> &[T]
    ensures { result.now ≡ take count (drop from s.now) }
{
    let start = from.min(s.len());
    let end = start + count.min(s.len() - start);
    &s[start..end]
}

// Fills the cells from `from` on.
pub fn fill<T: Low>(s: &mut [T], from: usize, x: usize)
    ensures before { take from s.new ≡ take from s.old }
    ensures filled { (k : ℕ) → from ≤ k → k < length s.new → slice_index_or s.new k (T.low (content x k)) ≡ T.low (content x k) }
{
    for i in from..s.len() {
        s[i] = T::low(content(x, i));
    }
}

// Whether the cells from `from` on are as they were filled.
pub fn stay<T: Low>(s: &[T], from: usize, x: usize) -> bool
    ensures { IsTrue result ↔ ((k : ℕ) → from ≤ k → k < length s.now → IsTrue (T.eq (slice_index_or s.now k (T.low (content x k))) (T.low (content x k)))) }
{
    for i in from..s.len() {
        if s[i] != T::low(content(x, i)) {
            return false;
        }
    }
    true
}

// Whether the first cells, so many, hold first, first + apart, first + 2 apart and so on.
pub fn listed(list: &[u32], hits: usize, first: usize, apart: usize) -> bool {
    (0..hits).all(|i| get(list, i) == u32::low(first.wrapping_add(i.wrapping_mul(apart))))
}
