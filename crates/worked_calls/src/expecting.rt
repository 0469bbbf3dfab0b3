//! What the tests compare with, and the lists that they hand over. Each stands here once, so that it
//! is proved once.

ghost use Rattle.std.specs.Prelude.{◌≡◌, true};

use std::alloc::Global;
use std::fmt::Display;
use std::process::Abort;
use ta_base::List;

/// Ends a test at a value that isn't the one that is wanted; the name says which.
pub fn expect<R: Abort>(rt: &R, holds: bool, name: &str)
    ensures { holds ≡ true }
{
    if !holds {
        rt.panic(name)
    }
}

/// Compares the text of a value.
pub fn expect_text<R: Abort, D: Display + Drop>(rt: &R, alloc: Global, value: D, want: &str) {
    let text = format!(in alloc; "{value}").expect(rt, "memory");
    expect(rt, text.as_str() == want, want);
}

/// A list of these items.
pub fn list_of<R: Abort, T: Copy>(rt: &R, alloc: Global, items: &[T]) -> List<T>
    ensures { result ≡ items.now }
{
    List::from_vec(Vec::from_slice(alloc, items).expect(rt, "memory"))
}
