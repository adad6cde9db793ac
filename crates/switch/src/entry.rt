// Reading a table past its end, where unused ports and cells would stand.
ghost use Rattle.std.specs.Prelude.{◌≡◌, get_or};

// Entry `i`, or `none` past the last.
pub fn entry<T: Copy>(table: &[T], i: u64, none: T) -> T
    ensures { result ≡ get_or table.now i none }
{
    table.get(i as usize).copied().unwrap_or(none)
}
