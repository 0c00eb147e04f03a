ghost use Rattle.std.specs.Prelude.{◌≡◌, ◌≤◌, ◌-◌, drop, length, min, suc, take};
ghost use Rattle.named_words.specs.Ranges.{are_crossed, part_of, place_in};

// A place among so many bytes, or the last one behind them.
fn place(long: usize, at: i64) -> usize
    ensures { result ≡ min long (place_in long at) }
{
    if at >= 0 {
        return long.min(at as usize);
    }
    long.saturating_sub(at.unsigned_abs() as usize)
}

// Tells whether both places count from the end, and the first is behind the second.
fn crossed(from: i64, to: i64) -> bool
    ensures { result ≡ are_crossed from to }
{
    from < 0 && to < 0 && from > to
}

// The bytes from one place to another, both among them.
fn cut(value: &[u8], start: usize, last: usize) -> &[u8]
    requires { last ≤ length value.now }
    ensures { result.now ≡ take (suc last - start) (drop start value.now) }
{
    let end = value.len().min(last + 1);
    if start < end {
        return &value[start..end];
    }
    &value[..0]
}

/// The bytes of a value from one place to another, both among them, as GETRANGE has them.
pub fn part(value: &[u8], from: i64, to: i64) -> &[u8]
    ensures { result.now ≡ part_of value.now from to }
{
    if crossed(from, to) {
        return &value[..0];
    }
    cut(value, place(value.len(), from), place(value.len(), to))
}
