ghost use Rattle.std.specs.Prelude.{◌≡◌, ◌≤◌, ◌<◌, ◌^◌};
ghost use Rattle.psa_model.specs.Expansion.{choose, size_of as members_in};

/// The number of choices of `k` among `n`. The recursion is at most `n` deep.
pub fn choices(n: u32, k: u32) -> u32
    requires { n < 31 }
    ensures exact { result ≡ choose n k }
    ensures small { result ≤ 2 ^ n }
{
    if k == 0 {
        1
    } else if n == 0 {
        0
    } else {
        choices(n - 1, k - 1) + choices(n - 1, k)
    }
}

/// How many of so many members a subset holds: its bits that are set. The recursion is at most `count`
/// deep.
pub fn size_of(count: u8, subset: u8) -> u8
    ensures exact { result ≡ members_in count subset }
    ensures small { result ≤ count }
{
    if count == 0 {
        0
    } else {
        subset % 2 + size_of(count - 1, subset / 2)
    }
}
