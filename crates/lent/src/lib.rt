// One element of a lent slice. Document 01's lent parts are as long as the caller made them: past its end another element stands for
// what is read, and nothing is written.
#![tactic(auto)]

ghost use Rattle.std.specs.Prelude.{◌≡◌, get_or, set};

// The element at a place; past the end, the other.
pub fn get<T: Copy>(s: &[T], at: usize, other: T) -> T
    ensures { result ≡ get_or s.now at other }
{
    s.get(at).copied().unwrap_or(other)
}

// An element is written at a place; past the end, none. By hand, since of a slice's `get_mut` the library says only that the length stays.
pub fn put<T: Copy>(s: &mut [T], at: usize, value: T)
    ensures { s.new ≡ set s.old at value }
{
    if at < s.len() {
        s[at] = value;
    }
}
